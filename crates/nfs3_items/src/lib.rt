//! The items that calls and results of NFS version 3 share (RFC 1813, section 2.6), read and written.
//!
//! It promises that each reader gives exactly what its grammar reads, with the first fault, and that each
//! put adds the one spelling of its value, and succeeds where room for it was reserved.
//! It stands on `xdr` for the items of XDR, and on `nfs3_types` for the values and their grammars.
#![tactic(auto)]

mod put;
mod put_attributes;
mod read;
mod read_attributes;
mod size;

pub use put::{
    put_file_type, put_handle, put_post_op_handle, put_spec_data, put_stable_how, put_status,
    put_text, put_time, put_verifier,
};
pub use put_attributes::{put_fattr, put_optional_time, put_post_op_attr, put_sattr, put_wcc};
pub use read::{
    read_file_type, read_handle, read_post_op_handle, read_spec_data, read_stable_how, read_status,
    read_text, read_time, read_verifier,
};
pub use read_attributes::{
    read_fattr, read_optional_time, read_post_op_attr, read_sattr, read_wcc,
};
pub use size::{
    handle_size, optional_time_size, post_op_attr_size, post_op_handle_size, sattr_size, text_size,
    wcc_size,
};
