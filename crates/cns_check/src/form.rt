//! The forms of the commands, and which of them a line was to be.

use crate::excerpt::shown;
use crate::words::wanted_of_cusip;
use cns_ids::{Cusip, Day, MemberNo, Shares, read_number};
use cns_input::{Command, command_of};
use std::alloc::{AllocError, Global};

// What stands at a place behind a command's word.
#[derive(Clone, Copy, PartialEq, Eq, Debug)]
enum Argument {
    // ALL, or a number of rows.
    Rows,
    // The number of an order, a packet or a lot.
    Place,
    // The number of lines that run beside a lot.
    Lines,
    // A member's number of an instruction of its own.
    Instruction,
    // Shares from 0, and from 1.
    Shares,
    Moved,
    Member,
    Issue,
    Date,
    // One of two words.
    OneOf(&'static str, &'static str),
}

// A command: its word, how it is written, and what stands behind the word.
struct Form {
    word: &'static str,
    written: &'static str,
    arguments: &'static [Argument],
}

static FORMS: [Form; 21] = [
    Form {
        word: "TAKE",
        written: "TAKE n or TAKE ALL",
        arguments: &[Argument::Rows],
    },
    Form {
        word: "EXEMPT",
        written: "EXEMPT member cusip shares",
        arguments: &[Argument::Member, Argument::Issue, Argument::Shares],
    },
    Form {
        word: "PRIORITY",
        written: "PRIORITY member cusip ON or OFF",
        arguments: &[
            Argument::Member,
            Argument::Issue,
            Argument::OneOf("ON", "OFF"),
        ],
    },
    Form {
        word: "CYCLE",
        written: "CYCLE NIGHT date or CYCLE DAY date",
        arguments: &[Argument::OneOf("NIGHT", "DAY"), Argument::Date],
    },
    Form {
        word: "LOT",
        written: "LOT cusip",
        arguments: &[Argument::Issue],
    },
    Form {
        word: "POUR",
        written: "POUR lot",
        arguments: &[Argument::Place],
    },
    Form {
        word: "RESERVE",
        written: "RESERVE lot member",
        arguments: &[Argument::Place, Argument::Member],
    },
    Form {
        word: "LOOK",
        written: "LOOK lot",
        arguments: &[Argument::Place],
    },
    Form {
        word: "SEAL",
        written: "SEAL lot",
        arguments: &[Argument::Place],
    },
    Form {
        word: "CLOSE",
        written: "CLOSE lot",
        arguments: &[Argument::Place],
    },
    Form {
        word: "ALLOCATE",
        written: "ALLOCATE cusip",
        arguments: &[Argument::Issue],
    },
    Form {
        word: "BESIDE",
        written: "BESIDE cusip k",
        arguments: &[Argument::Issue, Argument::Lines],
    },
    Form {
        word: "SEND",
        written: "SEND n",
        arguments: &[Argument::Place],
    },
    Form {
        word: "ORDER",
        written: "ORDER k",
        arguments: &[Argument::Place],
    },
    Form {
        word: "REPLY",
        written: "REPLY k",
        arguments: &[Argument::Place],
    },
    Form {
        word: "DEPOSIT",
        written: "DEPOSIT member n cusip shares",
        arguments: &[
            Argument::Member,
            Argument::Instruction,
            Argument::Issue,
            Argument::Moved,
        ],
    },
    Form {
        word: "WITHDRAW",
        written: "WITHDRAW member n cusip shares",
        arguments: &[
            Argument::Member,
            Argument::Instruction,
            Argument::Issue,
            Argument::Moved,
        ],
    },
    Form {
        word: "FAIL",
        written: "FAIL CLEAR or DEPOT, then KEEP or DROP",
        arguments: &[
            Argument::OneOf("CLEAR", "DEPOT"),
            Argument::OneOf("KEEP", "DROP"),
        ],
    },
    Form {
        word: "RESTART",
        written: "RESTART CLEAR or RESTART DEPOT",
        arguments: &[Argument::OneOf("CLEAR", "DEPOT")],
    },
    Form {
        word: "PUMP",
        written: "PUMP",
        arguments: &[],
    },
    Form {
        word: "REPORT",
        written: "REPORT",
        arguments: &[],
    },
];

// Whether a text may stand at a place.
fn fits(argument: Argument, text: &[u8]) -> bool {
    match argument {
        Argument::Rows => text == b"ALL".as_slice() || read_number(text, 1, 1_000_000).is_ok(),
        Argument::Place => read_number(text, 0, 1_000_000_000).is_ok(),
        Argument::Lines => read_number(text, 0, 1000).is_ok(),
        Argument::Instruction => read_number(text, 1, 1_000_000).is_ok(),
        Argument::Shares => Shares::read(text).is_ok(),
        Argument::Moved => read_number(text, 1, 1_000_000_000_000_000_000).is_ok(),
        Argument::Member => MemberNo::read(text).is_ok(),
        Argument::Issue => Cusip::read(text).is_ok(),
        Argument::Date => Day::read(text).is_ok(),
        Argument::OneOf(this, that) => text == this.as_bytes() || text == that.as_bytes(),
    }
}

// What is wanted of a CUSIP in place of a text that is none.
fn wanted_issue(alloc: Global, text: &[u8]) -> Result<String, AllocError> {
    match Cusip::read(text) {
        Ok(_) => format!(in alloc; "a CUSIP"),
        Err(fault) => {
            let wanted = wanted_of_cusip(alloc, fault)?;
            format!(in alloc; "a CUSIP: {wanted}")
        }
    }
}

// What may stand at a place in place of a text, in words.
fn wanted(alloc: Global, argument: Argument, text: &[u8]) -> Result<String, AllocError> {
    match argument {
        Argument::Rows => format!(in alloc; "ALL, or a number of rows from 1 to 1000000"),
        Argument::Place => format!(in alloc; "a number of digits alone, to 1000000000"),
        Argument::Lines => format!(in alloc; "a number of lines from 0 to 1000"),
        Argument::Instruction => format!(in alloc;
            "the number of the member's instruction, from 1 to 1000000"
        ),
        Argument::Shares => format!(in alloc; "a number of shares of digits alone, to 10^18"),
        Argument::Moved => format!(in alloc; "a number of shares of digits alone, from 1 to 10^18"),
        Argument::Member => format!(in alloc; "a member's number from 1 to 9999"),
        Argument::Issue => wanted_issue(alloc, text),
        Argument::Date => format!(in alloc; "a date such as 2025-03-04, of the years 1900 to 2199"),
        Argument::OneOf(this, that) => format!(in alloc; "{this} or {that}"),
    }
}

// The line with capital letters, one space between its words and none at its ends.
fn tidied(alloc: Global, line: &[u8]) -> Result<Vec<u8>, AllocError> {
    let mut tidy = Vec::new(alloc);
    let mut space = false;
    for byte in line {
        if *byte == b' ' || *byte == b'\t' {
            space = !tidy.is_empty();
            continue;
        }
        if space {
            tidy.push(b' ')?;
            space = false;
        }
        tidy.push(byte.to_ascii_uppercase())?;
    }
    Ok(tidy)
}

// The words of a line that is tidied.
fn words_of(alloc: Global, line: &[u8]) -> Result<Vec<&[u8]>, AllocError> {
    let mut words = Vec::new(alloc);
    for word in line.split(|byte| *byte == b' ') {
        words.push(word)?;
    }
    Ok(words)
}

// How many letters two words have in common, from the front and from the back.
fn likeness(word: &[u8], this: &[u8]) -> usize {
    let front = word.iter().zip(this).take_while(|(a, b)| *a == *b).count();
    let back = word
        .iter()
        .rev()
        .zip(this.iter().rev())
        .take_while(|(a, b)| *a == *b)
        .count();
    front.max(back)
}

// The form that a word names.
fn form_of(word: &[u8]) -> Option<&'static Form> {
    for form in &FORMS {
        if form.word.as_bytes() == word {
            return Some(form);
        }
    }
    None
}

// The form whose word is most like a word, where one has three letters in common with it.
fn nearest(word: &[u8]) -> Option<&'static Form> {
    let mut best = None;
    let mut most = 2;
    for form in &FORMS {
        let like = likeness(word, form.word.as_bytes());
        if like > most {
            most = like;
            best = Some(form);
        }
    }
    best
}

// What is wrong with the words behind the first, by the form that it names.
fn against_form(alloc: Global, form: &Form, words: &[&[u8]]) -> Result<String, AllocError> {
    let written = form.written;
    if words.len() != form.arguments.len() {
        let count = words.len();
        let stand = if count == 1 {
            "word stands"
        } else {
            "words stand"
        };
        let word = form.word;
        return format!(in alloc; "the form is {written}, and {count} {stand} behind {word}");
    }
    for (argument, text) in form.arguments.iter().zip(words) {
        if !fits(*argument, text) {
            let there = shown(alloc, text)?;
            let wanted = wanted(alloc, *argument, text)?;
            return format!(in alloc; "the form is {written}; in place of `{there}`: {wanted}");
        }
    }
    format!(in alloc; "a BESIDE may not stand among the lines that run beside a lot")
}

/// What was wanted of a line that is no command, or may not stand where it does.
pub(crate) fn wanted_of_line(alloc: Global, line: &[u8]) -> Result<String, AllocError> {
    let tidy = tidied(alloc, line)?;
    let is_tidy = tidy.as_slice() == line;
    let is_command = !matches!(command_of(tidy.as_slice()), Command::Bad | Command::Skip);
    if is_command && !is_tidy {
        let there = shown(alloc, tidy.as_slice())?;
        return format!(in alloc;
            "capital letters, with one space between words and none at an end: `{there}`"
        );
    }
    let words = words_of(alloc, tidy.as_slice())?;
    let Some((word, arguments)) = words.as_slice().split_first() else {
        return format!(in alloc; "a command");
    };
    if let Some(form) = form_of(word) {
        return against_form(alloc, form, arguments);
    }
    match nearest(word) {
        Some(form) => {
            let written = form.written;
            format!(in alloc; "a command; the nearest one is {written}")
        }
        None => format!(in alloc; "a command; cnsd run --help lists them"),
    }
}
