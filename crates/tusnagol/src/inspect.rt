use crate::failure::Failure;
use crate::tree::{Name, Numbered, print_tree};
use card::checked::Card;
use card::extensions::Extensions;
use file::checked::File;
use knowledge::understands;
use record::row::Kind;
use std::{fs, io};

fn read<'a>(rt: &HostRuntime, path: &'a str) -> Result<Vec<u8>, Failure<'a>> {
    fs::read(rt, path).map_err(|error| Failure::Unreadable { path, error })
}

// Prints what a record file holds and, with a card, what the card says of it.
pub(crate) fn inspect<'a>(
    rt: &HostRuntime,
    record: &'a str,
    card: Option<&'a str>,
) -> Result<(), Failure<'a>> {
    let bytes = read(rt, record)?;
    let file = File::check(bytes.as_slice()).map_err(|refusal| Failure::Refused {
        path: record,
        refusal,
    })?;
    let texts = file.texts().count();
    let rows = file.row_count();
    println!(rt; "{record}: {texts} texts, {rows} rows")?;
    print_tree(rt, &file)?;
    match card {
        Some(path) => compare(rt, &file, path),
        None => Ok(()),
    }
}

fn compare<'a>(rt: &HostRuntime, file: &File<'_>, path: &'a str) -> Result<(), Failure<'a>> {
    let bytes = read(rt, path)?;
    let card = Card::check(bytes.as_slice()).map_err(|refusal| Failure::Refused { path, refusal })?;
    println!(rt; "{path}:")?;
    print_namespaces(rt, file, &card)?;
    print_extensions(rt, file, card.extensions())?;
    Ok(())
}

// Whether a row names this text as a namespace.
fn names_namespace(file: &File<'_>, number: u32) -> bool {
    file.rows().any(|row| match Kind::try_from(row.kind) {
        Ok(Kind::Start | Kind::Attribute) => row.a == number,
        Ok(Kind::Declaration) => row.b == number,
        _ => false,
    })
}

fn print_namespaces(rt: &HostRuntime, file: &File<'_>, card: &Card<'_>) -> io::Result<()> {
    let texts = file.texts();
    let knowledge = card.knowledge();
    for number in 1..1024u32 {
        let Some(namespace) = texts.get(number) else {
            break;
        };
        if names_namespace(file, number) {
            let shown = Numbered { texts, number };
            let answer = if understands(&knowledge, namespace) {
                "understood"
            } else {
                "not understood"
            };
            println!(rt; "  namespace {shown}: {answer}")?;
        }
    }
    Ok(())
}

// The elements on the extension list that stand in no other such element.
fn print_extensions(rt: &HostRuntime, file: &File<'_>, list: Extensions<'_>) -> io::Result<()> {
    let texts = file.texts();
    // the levels that are open from the outermost extension element on
    let mut inside = 0usize;
    for (place, row) in file.rows().enumerate() {
        match Kind::try_from(row.kind) {
            Ok(Kind::Start) if inside > 0 => inside = inside.saturating_add(1),
            Ok(Kind::Start) if list.has(texts.at(row.a), texts.at(row.b)) => {
                inside = 1;
                let name = Name {
                    texts,
                    namespace: row.a,
                    local: row.b,
                };
                println!(rt; "  extension element at {place}: {name}")?;
            }
            Ok(Kind::End) => inside = inside.saturating_sub(1),
            _ => {}
        }
    }
    Ok(())
}
