use crate::failure::Failure;

// What the words of a command line ask for.
#[derive(Clone, Copy)]
pub enum Command<'a> {
    Inspect {
        record: &'a str,
        card: Option<&'a str>,
    },
}

impl<'a> TryFrom<&'a [String]> for Command<'a> {
    type Error = Failure<'a>;

    fn try_from(words: &'a [String]) -> Result<Command<'a>, Failure<'a>> {
        match words {
            [name, record] if name.as_str() == "inspect" => Ok(Command::Inspect {
                record: record.as_str(),
                card: None,
            }),
            [name, record, card] if name.as_str() == "inspect" => Ok(Command::Inspect {
                record: record.as_str(),
                card: Some(card.as_str()),
            }),
            _ => Err(Failure::Usage),
        }
    }
}
