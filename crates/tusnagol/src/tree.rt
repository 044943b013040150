use crate::shown::{Plain, Quoted};
use file::checked::File;
use file::texts::Texts;
use record::row::{Kind, Row};
use std::{fmt, io};

// The text of a number, or what is said where the file has none.
#[derive(Clone, Copy)]
pub struct Numbered<'a> {
    pub texts: Texts<'a>,
    pub number: u32,
}

impl<'a> fmt::Display for Numbered<'a> {
    fn fmt<W: fmt::Write>(&self, f: &mut fmt::Formatter<W>) -> fmt::Result {
        let number = self.number;
        match self.texts.get(number) {
            Some(text) => write!(f, "{}", Plain(text)),
            None => write!(f, "(no text {number})"),
        }
    }
}

// A local name and its namespace: `Test {urn:pump:1}`, or `Test` alone without namespace.
#[derive(Clone, Copy)]
pub struct Name<'a> {
    pub texts: Texts<'a>,
    pub namespace: u32,
    pub local: u32,
}

impl<'a> fmt::Display for Name<'a> {
    fn fmt<W: fmt::Write>(&self, f: &mut fmt::Formatter<W>) -> fmt::Result {
        let local = Numbered {
            texts: self.texts,
            number: self.local,
        };
        if self.namespace == 0 {
            return write!(f, "{local}");
        }
        let namespace = Numbered {
            texts: self.texts,
            number: self.namespace,
        };
        write!(f, "{local} {{{namespace}}}")
    }
}

// One row in words.
#[derive(Clone, Copy)]
struct Line<'a> {
    texts: Texts<'a>,
    row: Row,
}

impl<'a> Line<'a> {
    fn name(&self) -> Name<'a> {
        Name {
            texts: self.texts,
            namespace: self.row.a,
            local: self.row.b,
        }
    }

    fn quoted(&self, number: u32) -> Quoted<'a> {
        Quoted(self.texts.at(number))
    }

    fn write_declaration<W: fmt::Write>(&self, f: &mut fmt::Formatter<W>) -> fmt::Result {
        let namespace = self.quoted(self.row.b);
        if self.row.a == 0 {
            return write!(f, "declares the default prefix as {namespace}");
        }
        write!(f, "declares {} as {namespace}", self.quoted(self.row.a))
    }

    fn write_attribute<W: fmt::Write>(&self, f: &mut fmt::Formatter<W>) -> fmt::Result {
        write!(f, "attribute {} = {}", self.name(), self.quoted(self.row.c))
    }

    fn write_unknown<W: fmt::Write>(&self, f: &mut fmt::Formatter<W>) -> fmt::Result {
        let Row { kind, a, b, c } = self.row;
        write!(f, "kind {kind}, which no record has: {a} {b} {c}")
    }
}

impl<'a> fmt::Display for Line<'a> {
    fn fmt<W: fmt::Write>(&self, f: &mut fmt::Formatter<W>) -> fmt::Result {
        match Kind::try_from(self.row.kind) {
            Ok(Kind::Start) => write!(f, "element {}", self.name()),
            Ok(Kind::Declaration) => self.write_declaration(f),
            Ok(Kind::Attribute) => self.write_attribute(f),
            Ok(Kind::Text) => write!(f, "text {}", self.quoted(self.row.a)),
            _ => self.write_unknown(f),
        }
    }
}

// The rows as an indented tree, each behind its place. Rows that make no tree are shown as they stand.
pub(crate) fn print_tree(rt: &HostRuntime, file: &File<'_>) -> io::Result<()> {
    let texts = file.texts();
    let mut open = Vec::new(rt.alloc());
    for (place, row) in file.rows().enumerate() {
        let line = Line { texts, row };
        match Kind::try_from(row.kind) {
            Ok(Kind::Start) => {
                print_row(rt, place, open.len(), &line)?;
                open.push(line.name())?;
            }
            Ok(Kind::End) => {
                let element = open.pop();
                print_row(rt, place, open.len(), &Close { element })?;
            }
            _ => print_row(rt, place, open.len(), &line)?,
        }
    }
    Ok(())
}

fn print_row<L: fmt::Display>(
    rt: &HostRuntime,
    place: usize,
    depth: usize,
    line: &L,
) -> io::Result<()> {
    println!(rt; "{place:>6}  {}{line}", Indent(depth))
}

// Two blanks for each level. A width would write them one by one, a fourth slower on the deepest records.
#[derive(Clone, Copy)]
struct Indent(usize);

impl fmt::Display for Indent {
    fn fmt<W: fmt::Write>(&self, f: &mut fmt::Formatter<W>) -> fmt::Result {
        for _ in 0..self.0 / 8 {
            f.write_str("                ")?;
        }
        for _ in 0..self.0 % 8 {
            f.write_str("  ")?;
        }
        Ok(())
    }
}

// An end, with the element that it ends, if one is open.
#[derive(Clone, Copy)]
struct Close<'a> {
    element: Option<Name<'a>>,
}

impl<'a> fmt::Display for Close<'a> {
    fn fmt<W: fmt::Write>(&self, f: &mut fmt::Formatter<W>) -> fmt::Result {
        match self.element {
            Some(name) => write!(f, "end {name}"),
            None => f.write_str("end of no element"),
        }
    }
}
