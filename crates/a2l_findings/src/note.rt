//! What is reported: a list of facts, of which the page's sentence and the document are made.

use crate::reasons::Reason;
use dw_elf::OpenFault;
use dw_index::Range;
use std::alloc::{AllocError, Global};

/// What out of memory alone can refuse.
pub type Allocated<T> = Result<T, AllocError>;

/// Words of this program's own.
pub type Words = &'static str;

/// A fact, as a reader of a document wants it.
#[derive(Clone, Copy, Debug)]
pub enum Fact<'a> {
    /// There is none.
    Nothing,
    /// How many.
    Count(u64),
    /// How many, which the sentence hasn't.
    Unsaid(u64),
    /// An offset of a section, or an address.
    Place(u64),
    /// A text of the file, by its bytes.
    Text(&'a [u8]),
    /// Bytes of the file that are no text.
    Bytes(&'a [u8]),
    /// Words that are no text of the file.
    Words(&'a str),
    /// Why a file is refused.
    Fault(OpenFault),
    /// Why something can't be read.
    Reason(Reason),
}

/// A fact under its name.
#[derive(Clone, Copy, Debug)]
pub struct Part<'a> {
    /// The words of the sentence before it.
    pub words: Words,
    /// What it is a fact of; empty for the note itself.
    pub group: Words,
    /// Empty where the sentence alone has it.
    pub name: Words,
    pub fact: Fact<'a>,
}

/// Facts with their words, and what to do about them.
#[derive(Debug, Drop)]
pub struct Note<'a> {
    alloc: Global,
    /// What kind of thing it reports.
    pub kind: Words,
    pub parts: Vec<Part<'a>>,
    /// What to do about it.
    pub remedy: Option<Words>,
    group: Words,
}

impl<'a> Fact<'a> {
    /// A text of the file, where there is one.
    pub fn text(text: Option<&'a [u8]>) -> Self {
        text.map_or(Fact::Nothing, |text| Fact::Text(text))
    }

    /// A number, where there is one.
    pub fn count(count: Option<u64>) -> Self {
        count.map_or(Fact::Nothing, |count| Fact::Count(count))
    }

    /// Adds the fact to a sentence. Names and paths are in it byte for byte.
    fn push(self, alloc: Global, text: &mut Vec<u8>) -> Allocated<()> {
        let words = match self {
            Fact::Nothing | Fact::Unsaid(_) => return Ok(()),
            Fact::Words(words) => return text.extend_from_slice(words.as_bytes()),
            Fact::Count(number) => format!(in alloc; "{number}")?,
            Fact::Place(place) => format!(in alloc; "0x{place:x}")?,
            Fact::Bytes(bytes) => digits_of(alloc, bytes)?,
            Fact::Fault(fault) => format!(in alloc; "{fault}")?,
            Fact::Reason(reason) => format!(in alloc; "{reason}")?,
            Fact::Text(bytes) => {
                text.push(b'"')?;
                text.extend_from_slice(bytes)?;
                return text.extend_from_slice(b"\"");
            }
        };
        text.extend_from_slice(words.as_bytes())
    }
}

/// Bytes in hexadecimal digits, two for each.
pub fn digits_of(alloc: Global, bytes: &[u8]) -> Allocated<String> {
    let mut digits = String::new(alloc);
    for byte in bytes {
        let two = format!(in alloc; "{byte:02x}")?;
        digits.push_str(&two)?;
    }
    Ok(digits)
}

impl<'a> Note<'a> {
    /// A note that reports nothing yet.
    pub fn new(alloc: Global, kind: Words) -> Self {
        Note {
            alloc,
            kind,
            parts: Vec::new(alloc),
            remedy: None,
            group: "",
        }
    }

    /// A note of these words alone.
    pub fn of(alloc: Global, kind: Words, words: Words) -> Allocated<Self> {
        let mut note = Note::new(alloc, kind);
        note.say(words)?;
        Ok(note)
    }

    /// The next facts are of something: of a unit, or of a function.
    pub fn begin_group(&mut self, group: Words) {
        self.group = group;
    }

    /// Adds a fact and the words before it.
    fn push(&mut self, words: Words, name: Words, fact: Fact<'a>) -> Allocated<()> {
        let group = self.group;
        self.parts.push(Part {
            words,
            group,
            name,
            fact,
        })?;
        Ok(())
    }

    /// Adds words alone.
    pub fn say(&mut self, words: Words) -> Allocated<()> {
        self.push(words, "", Fact::Nothing)
    }

    /// Adds a fact and the words before it, where there is one.
    pub fn tell(&mut self, words: Words, name: Words, fact: Fact<'a>) -> Allocated<()> {
        match fact {
            Fact::Nothing => Ok(()),
            fact => self.push(words, name, fact),
        }
    }

    /// Adds a number.
    pub fn count(&mut self, words: Words, name: Words, number: u64) -> Allocated<()> {
        self.push(words, name, Fact::Count(number))
    }

    /// Adds an offset or an address.
    pub fn place(&mut self, words: Words, name: Words, place: u64) -> Allocated<()> {
        self.push(words, name, Fact::Place(place))
    }

    /// Adds the addresses from one on and below an end.
    pub fn span(&mut self, words: Words, range: Range) -> Allocated<()> {
        self.place(words, "begin", range.begin)?;
        self.place("-", "end", range.end)
    }

    /// Adds why something can't be read, where that is known.
    pub fn reason(&mut self, words: Words, reason: Option<Reason>) -> Allocated<()> {
        self.group = "";
        match reason {
            Some(reason) => self.push(words, "reason", Fact::Reason(reason)),
            None => Ok(()),
        }
    }

    /// Adds the sentence to a text, without an end of the line.
    pub fn push_sentence(&self, text: &mut Vec<u8>) -> Allocated<()> {
        for part in self.parts.as_slice() {
            text.extend_from_slice(part.words.as_bytes())?;
            part.fact.push(self.alloc, text)?;
        }
        Ok(())
    }
}
