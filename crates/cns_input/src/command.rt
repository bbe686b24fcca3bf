ghost use Rattle.std.specs.Prelude.{◌≡◌, ◌==◌, ◌∷◌, [], true, false, drop, length, IsSome, MatchOption, Some, None, unwrap_or, if◌then◌else◌};
ghost use Rattle.cns_trades.specs.Fields.{same_text};
ghost use Rattle.cns_words.specs.Words.{words_behind};
ghost use Rattle.cns_input.specs.declared.command.Command.TheVariants as command;
ghost use Rattle.cns_input.specs.Script.{by_table, command_of as command_of_line, commands, events, own_in, cusip_in, member_in, move_no_in, asked_in, node_in, place_in, take_in};

use cns_ids::{Cusip, CycleId, CycleKind, Day, MemberNo, Shares, read_number};
use cns_movements::{Asked, MoveNo};
use cns_records::{Instruction, Sort};
use cns_system::{Event, NodeName};
use cns_words::split_word;

/// A line of the script.
#[derive(Clone, Copy)]
pub enum Command {
    /// A blank line or a comment.
    Skip,
    /// `TAKE ALL`: all rows of trades that are left.
    TakeAll,
    /// `TAKE n`: the next n rows of trades.
    Take(u64),
    /// A command that is one event at a node, of the link or of a lot.
    Single(Event),
    /// `LOOK lot`: what stands of the lot is told.
    Look(u64),
    /// `ALLOCATE cusip`: a lot of the issue is opened, served and closed.
    Allocate(Cusip),
    /// `BESIDE cusip k`: the same, with this many of the next lines run once the lot is open.
    Beside { issue: Cusip, lines: u64 },
    /// `FAIL node KEEP` or `DROP`: the next commit of the node fails, and its record then stands at
    /// the restart or does not.
    Fail { node: NodeName, stands: bool },
    /// `PUMP`: each unconfirmed order is sent, executed and confirmed.
    Pump,
    /// `REPORT`.
    Report,
    /// A line that fits no form.
    Bad,
}

// Whether a word is this one, by a look at each byte: words are short.
fn is_word(word: &[u8], this: &[u8]) -> bool
    ensures { result ≡ same_text word.now this.now }
{
    if word.len() != this.len() {
        return false;
    }
    for (place, byte) in word.iter().enumerate() {
        if *byte != this[place] {
            return false;
        }
    }
    true
}

// The one word behind the first, where there is no other.
fn one(rest: Option<&[u8]>) -> Option<&[u8]>
    ensures { let words = words_behind rest.entry in MatchOption result ((length words == 1) ≡ false) (λ a. words ≡ a.now ∷ []) }
{
    match split_word(rest?) {
        (word, None) => Some(word),
        (_, Some(_)) => None,
    }
}

// The two words behind the first, where there are no others.
fn two(rest: Option<&[u8]>) -> Option<(&[u8], &[u8])>
    ensures { let words = words_behind rest.entry in MatchOption result ((length words == 2) ≡ false) (λ p. words ≡ p.0.now ∷ p.1.now ∷ []) }
{
    let (word, rest) = split_word(rest?);
    let next = one(rest)?;
    Some((word, next))
}

// The three words behind the first, where there are no others.
fn three(rest: Option<&[u8]>) -> Option<(&[u8], &[u8], &[u8])>
    ensures { let words = words_behind rest.entry in MatchOption result ((length words == 3) ≡ false) (λ t. words ≡ t.0.now ∷ t.1.now ∷ t.2.now ∷ []) }
{
    let (word, rest) = split_word(rest?);
    let (next, last) = two(rest)?;
    Some((word, next, last))
}

// The four words behind the first, where there are no others.
fn four(rest: Option<&[u8]>) -> Option<(&[u8], &[u8], &[u8], &[u8])>
    ensures { let words = words_behind rest.entry in MatchOption result ((length words == 4) ≡ false) (λ t. words ≡ t.0.now ∷ t.1.now ∷ t.2.now ∷ t.3.now ∷ []) }
{
    let (word, rest) = split_word(rest?);
    let (next, third, last) = three(rest)?;
    Some((word, next, third, last))
}

// The number of an order, of a packet or of a lot.
fn read_place(text: &[u8]) -> Option<u64>
    ensures { result ≡ place_in text.now }
{
    read_number(text, 0, 1_000_000_000).ok()
}

fn read_member(text: &[u8]) -> Option<MemberNo>
    ensures { result ≡ member_in text.now }
{
    MemberNo::read(text).ok()
}

fn read_issue(text: &[u8]) -> Option<Cusip>
    ensures { result ≡ cusip_in text.now }
{
    Cusip::read(text).ok()
}

// The number of a member's own instruction.
#[tactic(auto, unfolding(cns_ids::specs::Number::number_in))]
fn read_move_no(text: &[u8]) -> Option<MoveNo>
    ensures { result ≡ move_no_in text.now }
{
    MoveNo::new(read_number(text, 1, MoveNo::MAX).ok()?)
}

// The shares of a member's own instruction.
#[tactic(auto, unfolding(cns_ids::specs::Number::number_in))]
fn read_asked(text: &[u8]) -> Option<Asked>
    ensures { result ≡ asked_in text.now }
{
    Asked::new(read_number(text, 1, Asked::MAX).ok()?)
}

// What one of two words stands for.
fn read_one_of<T: Drop>(text: &[u8], this: &[u8], a: T, that: &[u8], b: T) -> Option<T>
    ensures { result ≡ (if same_text text.now this.now then Some a else if same_text text.now that.now then Some b else None) }
{
    if is_word(text, this) {
        Some(a)
    } else if is_word(text, that) {
        Some(b)
    } else {
        None
    }
}

fn read_node(text: &[u8]) -> Option<NodeName>
    ensures { result ≡ node_in text.now }
{
    read_one_of(text, b"CLEAR", NodeName::Clear, b"DEPOT", NodeName::Depot)
}

// All rows, or a number of them.
fn read_take(text: &[u8]) -> Option<Command>
    ensures { result ≡ take_in text.now }
{
    if is_word(text, b"ALL") {
        return Some(Command::TakeAll);
    }
    read_number(text, 1, 1_000_000).ok().map(Command::Take)
}

// A member's own instruction of a sort.
fn read_own(sort: Sort, rest: Option<&[u8]>) -> Option<Event>
    ensures { result ≡ own_in sort (words_behind rest.entry) }
{
    let (member, number, issue, shares) = four(rest)?;
    Some(Event::Own(Instruction {
        sort,
        member: read_member(member)?,
        number: read_move_no(number)?,
        issue: read_issue(issue)?,
        shares: read_asked(shares)?,
    }))
}

// The event that a word and those behind it are, where it is neither a restart nor of a lot: `CYCLE NIGHT date`
// or `CYCLE DAY date`, `EXEMPT member cusip shares`, `PRIORITY member cusip ON` or `OFF`,
// `DEPOSIT member number cusip shares` or `WITHDRAW ..`.
fn read_other_event(word: &[u8], rest: Option<&[u8]>) -> Option<Event>
    ensures { result ≡ by_table (drop 6 events) (word.now ∷ words_behind rest.entry) }
{
    if is_word(word, b"CYCLE") {
        let (kind, day) = two(rest)?;
        let kind = read_one_of(kind, b"NIGHT", CycleKind::Night, b"DAY", CycleKind::Day)?;
        let day = Day::read(day).ok()?;
        Some(Event::Cycle(CycleId { day, kind }))
    } else if is_word(word, b"EXEMPT") {
        let (member, issue, shares) = three(rest)?;
        Some(Event::Exempt {
            member: read_member(member)?,
            issue: read_issue(issue)?,
            shares: Shares::read(shares).ok()?,
        })
    } else if is_word(word, b"PRIORITY") {
        let (member, issue, on) = three(rest)?;
        Some(Event::Priority {
            member: read_member(member)?,
            issue: read_issue(issue)?,
            on: read_one_of(on, b"ON", true, b"OFF", false)?,
        })
    } else if is_word(word, b"DEPOSIT") {
        read_own(Sort::Deposit, rest)
    } else if is_word(word, b"WITHDRAW") {
        read_own(Sort::Withdraw, rest)
    } else {
        None
    }
}

// The event that a word and those behind it are: `RESTART node`, `LOT cusip`, `POUR lot`,
// `RESERVE lot member`, `SEAL lot`, `CLOSE lot`, or another.
fn read_event(word: &[u8], rest: Option<&[u8]>) -> Option<Event>
    ensures { result ≡ by_table events (word.now ∷ words_behind rest.entry) }
{
    if is_word(word, b"RESTART") {
        let node = read_node(one(rest)?)?;
        Some(Event::Restart(node))
    } else if is_word(word, b"LOT") {
        let issue = read_issue(one(rest)?)?;
        Some(Event::LotOpen { issue })
    } else if is_word(word, b"POUR") {
        let lot = read_place(one(rest)?)?;
        Some(Event::LotPour { lot })
    } else if is_word(word, b"RESERVE") {
        let (lot, member) = two(rest)?;
        Some(Event::Reserve {
            lot: read_place(lot)?,
            member: read_member(member)?,
        })
    } else if is_word(word, b"SEAL") {
        let lot = read_place(one(rest)?)?;
        Some(Event::Seal { lot })
    } else if is_word(word, b"CLOSE") {
        let lot = read_place(one(rest)?)?;
        Some(Event::LotClose { lot })
    } else {
        read_other_event(word, rest)
    }
}

// The command that a word with others behind it is, where it is none of the link.
fn read_longer(word: &[u8], rest: Option<&[u8]>) -> Option<Command>
    ensures { result ≡ by_table (drop 5 commands) (word.now ∷ words_behind rest.entry) }
{
    if is_word(word, b"TAKE") {
        read_take(one(rest)?)
    } else if is_word(word, b"LOOK") {
        let lot = read_place(one(rest)?)?;
        Some(Command::Look(lot))
    } else if is_word(word, b"ALLOCATE") {
        let issue = read_issue(one(rest)?)?;
        Some(Command::Allocate(issue))
    } else if is_word(word, b"BESIDE") {
        let (issue, lines) = two(rest)?;
        Some(Command::Beside {
            issue: read_issue(issue)?,
            lines: read_number(lines, 0, 1000).ok()?,
        })
    } else if is_word(word, b"FAIL") {
        let (node, stands) = two(rest)?;
        Some(Command::Fail {
            node: read_node(node)?,
            stands: read_one_of(stands, b"KEEP", true, b"DROP", false)?,
        })
    } else {
        read_event(word, rest).map(Command::Single)
    }
}

// The command that a word and others behind it are, where it is none of the link. It stands by itself, so that those of
// the link set no room aside for what it reads.
#[inline(never)]
#[tactic(auto, using(crate::proofs::CommandLemmas::none_with_others))]
fn read_other(word: &[u8], rest: Option<&[u8]>) -> Option<Command>
    requires { IsSome rest }
    ensures { result ≡ by_table (drop 3 commands) (word.now ∷ words_behind rest.entry) }
{
    // These two stand alone.
    if is_word(word, b"PUMP") || is_word(word, b"REPORT") {
        return None;
    }
    read_longer(word, rest)
}

// The command that a word and others behind it are: `SEND n`, `ORDER k`, `REPLY k`, or another.
fn read_command(word: &[u8], rest: Option<&[u8]>) -> Option<Command>
    requires { IsSome rest }
    ensures { result ≡ by_table commands (word.now ∷ words_behind rest.entry) }
{
    if is_word(word, b"SEND") {
        let number = read_place(one(rest)?)?;
        Some(Command::Single(Event::Send { number }))
    } else if is_word(word, b"ORDER") {
        let packet = read_place(one(rest)?)?;
        Some(Command::Single(Event::OrderIn { packet }))
    } else if is_word(word, b"REPLY") {
        let packet = read_place(one(rest)?)?;
        Some(Command::Single(Event::ReplyIn { packet }))
    } else {
        read_other(word, rest)
    }
}

// The command that a word with others behind it is; a bad one where it is none.
#[inline(never)]
fn command_with(word: &[u8], rest: Option<&[u8]>) -> Command
    requires { IsSome rest }
    ensures { result ≡ unwrap_or (by_table commands (word.now ∷ words_behind rest.entry)) command.Bad }
{
    match read_command(word, rest) {
        Some(command) => command,
        None => Command::Bad,
    }
}

// The command that a word alone is; a bad one where it is none.
fn command_alone(word: &[u8]) -> Command
    ensures { result ≡ unwrap_or (by_table commands (word.now ∷ [])) command.Bad }
{
    if is_word(word, b"PUMP") {
        Command::Pump
    } else if is_word(word, b"REPORT") {
        Command::Report
    } else {
        Command::Bad
    }
}

/// The command that a line of the script is.
#[tactic(auto, unfolding(crate::specs::Script::command_of))]
pub fn command_of(line: &[u8]) -> Command
    ensures { result ≡ command_of_line line.now }
{
    if line.is_empty() || line[0] == b'#' {
        return Command::Skip;
    }
    match split_word(line) {
        (word, None) => command_alone(word),
        (word, rest) => command_with(word, rest),
    }
}
