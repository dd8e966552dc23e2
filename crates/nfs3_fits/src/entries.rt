//! Lists of entries have a spelling.

ghost use Rattle.std.specs.Prelude.{◌^◌, ◌≤◌, All, IfSome, length};
ghost use Rattle.nfs3_types.specs.Replies.{dir_entry, dir_entry_plus, read_dir_ok, read_dir_plus_ok};
ghost use Rattle.nfs3_fits.specs.Shape.{IsHandle, AreShort, AreShortPlus};

use crate::attributes::post_op_attr_fits;
use crate::numbers::{hyper_fits, verifier_fits};
use nfs3_types::{DirEntry, DirEntryPlus, ReadDirOk, ReadDirPlusOk};

#[tactic(auto, using(crate::proofs::Listings::dir_entry_fits_by))]
fn dir_entry_fits(entry: &DirEntry)
    requires { length entry.now.name ≤ 2 ^ 20 }
    ensures { dir_entry.Fits entry.now }
{
    hyper_fits(entry.fileid);
    hyper_fits(entry.cookie);
}

fn entries_fit(entries: &[DirEntry])
    requires { AreShort entries.now }
    ensures { All dir_entry.Fits entries.now }
{
    for entry in entries {
        dir_entry_fits(entry);
    }
}

#[tactic(auto, using(crate::proofs::Listings::read_dir_fits_by))]
pub fn read_dir_fits(ok: &ReadDirOk)
    requires { AreShort ok.now.entries }
    ensures { read_dir_ok.Fits ok.now }
{
    post_op_attr_fits(ok.attributes);
    verifier_fits(&ok.verifier);
    entries_fit(ok.entries.as_slice());
}

#[tactic(auto, using(crate::proofs::Listings::dir_entry_plus_fits_by))]
fn dir_entry_plus_fits(entry: &DirEntryPlus)
    requires name { length entry.now.name ≤ 2 ^ 20 }
    requires object { IfSome entry.now.object IsHandle }
    ensures { dir_entry_plus.Fits entry.now }
{
    hyper_fits(entry.fileid);
    hyper_fits(entry.cookie);
    post_op_attr_fits(entry.attributes);
}

fn entries_plus_fit(entries: &[DirEntryPlus])
    requires { AreShortPlus entries.now }
    ensures { All dir_entry_plus.Fits entries.now }
{
    for entry in entries {
        dir_entry_plus_fits(entry);
    }
}

#[tactic(auto, using(crate::proofs::Listings::read_dir_plus_fits_by))]
pub fn read_dir_plus_fits(ok: &ReadDirPlusOk)
    requires { AreShortPlus ok.now.entries }
    ensures { read_dir_plus_ok.Fits ok.now }
{
    post_op_attr_fits(ok.attributes);
    verifier_fits(&ok.verifier);
    entries_plus_fit(ok.entries.as_slice());
}
