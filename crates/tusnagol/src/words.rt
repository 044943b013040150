use record::refusal::Refusal;
use std::fmt;

// A refusal in words, with its number and place.
#[derive(Clone, Copy)]
pub struct Explained(pub Refusal);

impl fmt::Display for Explained {
    fn fmt<W: fmt::Write>(&self, f: &mut fmt::Formatter<W>) -> fmt::Result {
        let refusal = self.0;
        write!(f, "refused: {}", refusal.number())?;
        if let Some(unit) = unit(refusal) {
            write!(f, " at {unit} {}", refusal.place())?;
        }
        if let Some(cause) = refusal.cause() {
            write!(f, " cause {}", u32::from(cause))?;
        }
        write!(f, ": {refusal}")
    }
}

// What a refusal's place counts, if it names one.
fn unit(refusal: Refusal) -> Option<&'static str> {
    match refusal {
        Refusal::MisplacedText { .. } | Refusal::RepeatedText { .. } => Some("pair"),
        Refusal::TooShort
        | Refusal::OutsideLimits
        | Refusal::WrongLength
        | Refusal::OutOfTurn
        | Refusal::Spoilt
        | Refusal::NotForSheet => None,
        _ => Some("row"),
    }
}
