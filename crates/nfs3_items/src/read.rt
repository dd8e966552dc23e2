//! Reading texts, numbers that are named, times and devices.

ghost use Rattle.xdr_grammar.specs.Reading.{Gives};
ghost use Rattle.nfs3_types.specs.Statuses.{status};
ghost use Rattle.nfs3_types.specs.FileTypes.{file_type};
ghost use Rattle.nfs3_types.specs.Stability.{stable_how};
ghost use Rattle.nfs3_types.specs.Handles.{file_handle, post_op_handle};
ghost use Rattle.nfs3_types.specs.Attributes.{time, spec_data};
ghost use Rattle.nfs3_types.specs.Calls.{text, verifier};

use nfs3_types::{FHSIZE, FileType, Moment, SpecData, StableHow, Status, TextRef};
use xdr::Reader;
use xdr_grammar::XdrFault;

/// Reads a file handle of any server (nfs_fh3). It is lent.
#[tactic(auto, unfolding(nfs3_types::specs::Handles::file_handle))]
pub fn read_handle<'a>(reader: &mut Reader<'a>) -> Result<TextRef<'a>, XdrFault>
    ensures { Gives file_handle (λ handle. handle) reader.old reader.new result }
{
    Ok(TextRef::new(reader.opaque(FHSIZE)?))
}

/// Reads a file handle that may be absent (post_op_fh3). It is lent.
#[tactic(auto, unfolding(nfs3_types::specs::Handles::post_op_handle))]
pub fn read_post_op_handle<'a>(reader: &mut Reader<'a>) -> Result<Option<TextRef<'a>>, XdrFault>
    ensures { Gives post_op_handle (λ handle. handle) reader.old reader.new result }
{
    if reader.truth()? {
        Ok(Some(read_handle(reader)?))
    } else {
        Ok(None)
    }
}

/// Reads a name, a path or content, of any length (filename3, nfspath3). It is lent.
#[tactic(auto, unfolding(nfs3_types::specs::Calls::text))]
pub fn read_text<'a>(reader: &mut Reader<'a>) -> Result<TextRef<'a>, XdrFault>
    ensures { Gives text (λ text. text) reader.old reader.new result }
{
    Ok(TextRef::new(reader.opaque(u32::MAX)?))
}

/// Reads a verifier of eight bytes (cookieverf3, createverf3, writeverf3).
#[tactic(auto, unfolding(nfs3_types::specs::Calls::verifier))]
pub fn read_verifier(reader: &mut Reader<'_>) -> Result<[u8; 8], XdrFault>
    ensures { Gives verifier (λ verifier. verifier) reader.old reader.new result }
{
    let part = reader.fixed(8)?;
    let mut verifier = [0; 8];
    verifier.copy_from_slice(part);
    Ok(verifier)
}

/// Reads a status (nfsstat3).
#[tactic(auto, unfolding(nfs3_types::specs::Statuses::status, xdr_grammar::specs::Enumerations::enumeration))]
pub fn read_status(reader: &mut Reader<'_>) -> Result<Status, XdrFault>
    ensures { Gives status (λ status. status) reader.old reader.new result }
{
    let number = reader.word()?;
    match Status::of(number) {
        Some(status) => Ok(status),
        None => Err(XdrFault::BadEnum),
    }
}

/// Reads a file's type (ftype3).
#[tactic(auto, unfolding(nfs3_types::specs::FileTypes::file_type, xdr_grammar::specs::Enumerations::enumeration))]
pub fn read_file_type(reader: &mut Reader<'_>) -> Result<FileType, XdrFault>
    ensures { Gives file_type (λ kind. kind) reader.old reader.new result }
{
    let number = reader.word()?;
    match FileType::of(number) {
        Some(kind) => Ok(kind),
        None => Err(XdrFault::BadEnum),
    }
}

/// Reads how lasting a write is (stable_how).
#[tactic(auto, unfolding(nfs3_types::specs::Stability::stable_how, xdr_grammar::specs::Enumerations::enumeration))]
pub fn read_stable_how(reader: &mut Reader<'_>) -> Result<StableHow, XdrFault>
    ensures { Gives stable_how (λ stable. stable) reader.old reader.new result }
{
    let number = reader.word()?;
    match StableHow::of(number) {
        Some(stable) => Ok(stable),
        None => Err(XdrFault::BadEnum),
    }
}

/// Reads a time (nfstime3).
#[tactic(auto, unfolding(nfs3_types::specs::Attributes::time))]
pub fn read_time(reader: &mut Reader<'_>) -> Result<Moment, XdrFault>
    ensures { Gives time (λ time. time) reader.old reader.new result }
{
    Ok(Moment {
        seconds: reader.word()?,
        nanos: reader.word()?,
    })
}

/// Reads which device it is (specdata3).
#[tactic(auto, unfolding(nfs3_types::specs::Attributes::spec_data))]
pub fn read_spec_data(reader: &mut Reader<'_>) -> Result<SpecData, XdrFault>
    ensures { Gives spec_data (λ spec. spec) reader.old reader.new result }
{
    Ok(SpecData {
        major: reader.word()?,
        minor: reader.word()?,
    })
}
