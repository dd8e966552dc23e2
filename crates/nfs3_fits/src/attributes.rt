//! Attributes have a spelling.

ghost use Rattle.nfs3_types.specs.Attributes.{time, spec_data, fattr, post_op_attr, wcc_attr, pre_op_attr, wcc_data};

use nfs3_types::{Fattr, Moment, SpecData, Wcc, WccAttr};

/// A time has a spelling.
#[tactic(auto, using(crate::proofs::Structures::time_fits_by))]
pub fn time_fits(t: Moment)
    ensures { time.Fits t }
{}

#[tactic(auto, using(crate::proofs::Structures::spec_data_fits_by))]
fn spec_data_fits(s: SpecData)
    ensures { spec_data.Fits s }
{}

/// Attributes have a spelling.
#[tactic(auto, using(crate::proofs::Structures::fattr_fits_by))]
pub fn fattr_fits(a: Fattr)
    ensures { fattr.Fits a }
{
    spec_data_fits(a.rdev);
    time_fits(a.atime);
    time_fits(a.mtime);
    time_fits(a.ctime);
}

/// Attributes that may be absent have a spelling.
#[tactic(auto, using(crate::proofs::Structures::post_some, crate::proofs::Structures::post_none))]
pub fn post_op_attr_fits(a: Option<Fattr>)
    ensures { post_op_attr.Fits a }
{
    if let Some(a) = a {
        fattr_fits(a);
    }
}

#[tactic(auto, using(crate::proofs::Structures::wcc_attr_fits_by))]
fn wcc_attr_fits(w: WccAttr)
    ensures { wcc_attr.Fits w }
{
    time_fits(w.mtime);
    time_fits(w.ctime);
}

#[tactic(auto, using(crate::proofs::Structures::pre_some, crate::proofs::Structures::pre_none))]
fn pre_op_attr_fits(w: Option<WccAttr>)
    ensures { pre_op_attr.Fits w }
{
    if let Some(w) = w {
        wcc_attr_fits(w);
    }
}

/// Attributes before and after have a spelling.
#[tactic(auto, using(crate::proofs::Structures::wcc_fits_by))]
pub fn wcc_fits(w: Wcc)
    ensures { wcc_data.Fits w }
{
    pre_op_attr_fits(w.before);
    post_op_attr_fits(w.after);
}
