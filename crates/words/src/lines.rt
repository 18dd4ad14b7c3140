ghost use Rattle.std.specs.Prelude.{◌≡◌, [], ◌++◌, map, IfOk, OnOk};
ghost use Rattle.words.specs.Lines.{blank, ended, words_of};

use std::alloc::{AllocError, Global};

/// Whether a byte separates words: a space, a tab or a carriage return.
fn is_blank(byte: u8) -> bool
    ensures { result ≡ blank byte }
{
    byte == b' ' || byte == b'\t' || byte == b'\r'
}

/// Adds a word that has come to its end, unless it has no byte.
fn add<'a>(all: &mut Vec<&'a [u8]>, word: &'a [u8]) -> Result<(), AllocError>
    ensures { OnOk result (map (λ w. w.now) all.new.items ≡ map (λ w. w.now) all.old.items ++ ended word.now []) }
{
    if word.len() > 0 {
        all.push(word)?;
    }
    Ok(())
}

/// The words of a line, in their order.
pub fn words<'a>(heap: Global, line: &'a [u8]) -> Result<Vec<&'a [u8]>, AllocError>
    ensures { IfOk result (λ v. map (λ w. w.now) v.items ≡ words_of line.now) }
{
    let mut all = Vec::new(heap);
    let mut start = 0;
    // a loop and no chain over `split`: where a word begins is a number here, which an edit can turn
    for (i, byte) in line.iter().enumerate() {
        if is_blank(*byte) {
            add(&mut all, &line[start..i])?;
            start = i + 1;
        }
    }
    add(&mut all, &line[start..])?;
    Ok(all)
}
