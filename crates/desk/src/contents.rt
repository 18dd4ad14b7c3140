//! What a buffer holds, read as a publication or as a sheet.
use crate::arguments;
use crate::buffers::Buffers;
use crate::faults::Fault;
use crate::line::Line;
use fields::reader::Reader;
use levels::tables::tag_of;
use makes::read_any;
use passes::reading::read_form;
use publication_layout::coverage::coverage_row;
use publications::{PublicationHead, ROW_SIZE};
use sheet_layout::judging::judge_sheet;
use sheet_layout::reader::SheetReader;
use sheets::{SheetField, SheetHead, SheetWord};
use std::alloc::AllocError;

/// Shows what a buffer holds as a publication or as a sheet.
pub(crate) fn read(buffers: &Buffers, line: &mut Line<'_>) -> Result<(), Fault> {
    match line.words {
        [b"publication", name] => publication(buffers.get(arguments::name(name)?)?, line),
        [b"sheet", name] => sheet(buffers.get(arguments::name(name)?)?, line),
        _ => Err(Fault::Usage),
    }
}

/// Shows the head, the coverage rows and the tables of a publication.
fn publication(bytes: &[u8], line: &mut Line<'_>) -> Result<(), Fault> {
    let publication = read_any(bytes)?;
    let PublicationHead {
        make,
        hashes,
        salt,
        number,
    } = publication.head;
    line.say(format_args!("publication make {make} hashes {hashes} salt {salt} number {number}"))?;
    let coverage = publication.coverage;
    // by number: `coverage_row` judges a row where it stands, and an iterator of rows would be a type of its own for this one loop
    for row in (0..coverage.len() / ROW_SIZE).filter_map(|i| coverage_row(coverage, i)) {
        line.say(format_args!("covers {row}"))?;
    }
    show_tables(publication.tables, line)
}

/// Shows the length and the hash of each table: a line for each, so no `Display`.
fn show_tables(tables: &[u8], line: &mut Line<'_>) -> Result<(), Fault> {
    let mut reader = Reader::new(tables);
    for level in 1..=7u8 {
        let body = reader.field(tag_of(level), 0, 65_535)?;
        let length = body.len();
        let check = murmur::hash(0, body);
        line.say(format_args!("table {level} length {length} check 0x{check:08X}"))?;
    }
    Ok(())
}

/// Shows the head and the words of a sheet.
fn sheet(bytes: &[u8], line: &mut Line<'_>) -> Result<(), Fault> {
    let judged = judge_sheet(bytes)?;
    let SheetHead { number, step } = judged.head;
    let words = judged.words;
    line.say(format_args!("sheet number {number} step {step} words {words}"))?;
    let mut reader = SheetReader::new(bytes);
    // A count ends the loop: what the reader's contract says of the end would need a measure of its own.
    for _ in 0..words.saturating_add(1) {
        if let SheetField::Word(word) = reader.next()? {
            show_word(word, line)?;
        }
    }
    Ok(())
}

/// Shows a word of a sheet, if its form is a pass: a `Display` would have to print nothing for the others.
fn show_word(word: SheetWord<'_>, line: &mut Line<'_>) -> Result<(), AllocError> {
    match read_form(word.form) {
        Some(pass) => line.say(format_args!("word {} {pass}", word.side)),
        None => Ok(()),
    }
}
