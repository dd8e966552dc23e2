//! One case, and how a line says it.

ghost use Rattle.std.specs.Prelude.{◌≡◌, ◌≤◌, IfOk, Ok};
ghost use Rattle.std.specs.Str.Parse.{digits_value, without_leading_plus};
ghost use Rattle.hex.specs.Hex.{decode_of};

use anyhow::{Context, Result, bail, ensure};
use outside::Text;
use std::alloc::{AllocError, Global};

/// What the service is run on.
#[derive(Debug, Drop)]
pub struct Case {
    /// What the case is called.
    pub name: String,
    /// The words of the command.
    pub words: Vec<String>,
    /// The most bytes of one take, and of one put.
    pub cut: usize,
    /// Which takes fail, from the first: those with a byte 1.
    pub takes: Text,
    /// Which puts fail, from the first: those with a byte 1.
    pub puts: Text,
    /// The bytes to be read.
    pub input: Text,
    ghost cut_is_positive: { 1 ≤ cut },
}

/// The words of a field, which spaces separate.
fn words(alloc: Global, field: &str) -> Result<Vec<String>, AllocError> {
    let mut words = Vec::new(alloc);
    for word in field.split_whitespace() {
        words.push(String::from_str(alloc, word)?)?;
    }
    Ok(words)
}

/// The most bytes of one take, in decimal digits: at least 1.
fn size(field: &str) -> Result<usize>
    ensures value { IfOk result (λ cut. cut ≡ digits_value 10 (without_leading_plus field.now)) }
    ensures positive { IfOk result (λ cut. 1 ≤ cut) }
{
    let cut = field.parse::<usize>()?;
    ensure!(1 <= cut, "a take has at least 1 byte");
    Ok(cut)
}

/// The bytes of a field, in hexadecimal.
fn bytes(alloc: Global, field: &str) -> Result<Text>
    ensures { IfOk result (λ bytes. decode_of field.now ≡ Ok bytes) }
{
    Ok(Text::from_vec(hex::decode(alloc, field)?))
}

/// The case of a line. Tabs separate its six fields: name, words, the most bytes of one take or put,
/// which takes fail, which puts fail, and the input, these three in hexadecimal.
pub fn read(alloc: Global, line: &str) -> Result<Case> {
    let fields: Vec<&str> = line.split('\t').collect(alloc)?;
    let [name, command, cut, takes, puts, input] = *fields else {
        bail!("a case has 6 fields, and here are {}", fields.len());
    };
    Ok(Case {
        name: String::from_str(alloc, name)?,
        words: words(alloc, command)?,
        cut: size(cut).context("the most bytes of a take")?,
        takes: bytes(alloc, takes).context("which takes fail")?,
        puts: bytes(alloc, puts).context("which puts fail")?,
        input: bytes(alloc, input).context("the input")?,
    })
}
