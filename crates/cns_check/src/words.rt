//! The words in which a finding is told, in the form of a compiler: `NAME:LINE: what stands there: what was
//! wanted`. They are tested, and nothing is proved of them.

use crate::excerpt::shown;
use crate::finding::{Finding, Head, Part, Table};
use crate::form::wanted_of_line;
use crate::found::{Findings, Found, MOST_OF_A_PART};
use crate::repeat::{Repeat, Repeats};
use cns_depository::OpeningFault;
use cns_ids::{CusipFault, ReadFault};
use cns_input::{line_size, line_text};
use cns_trades::RowFault;
use std::alloc::{AllocError, Global};

// A row of a section.
fn row_word(table: Table) -> &'static str {
    match table {
        Table::Openings => "opening",
        Table::Trades => "trade",
    }
}

// The header of a section, as it is to stand.
fn header_of(alloc: Global, table: Table) -> Result<String, AllocError> {
    let mut header = String::new(alloc);
    for word in table.header() {
        if !header.is_empty() {
            header.push(',')?;
        }
        header.push_str(word)?;
    }
    Ok(header)
}

// The field that has a fault.
fn field_word(fault: RowFault) -> &'static str {
    match fault {
        RowFault::Fields => "row",
        RowFault::Id => "trade",
        RowFault::Settle => "settle",
        RowFault::Buyer(_) => "buyer",
        RowFault::Seller(_) => "seller",
        RowFault::Cusip(_) => "cusip",
        RowFault::Quantity(_) => "quantity",
        RowFault::Account(_) => "account",
        RowFault::Shares(_) => "shares",
    }
}

// What is wanted of a number of a member or of shares.
fn wanted_number(fault: ReadFault, range: &'static str) -> (&'static str, &'static str) {
    match fault {
        ReadFault::BadNumber => ("digits alone, with no sign, space, dot or comma: ", range),
        ReadFault::OutOfRange => ("a number ", range),
    }
}

/// What is wanted in place of a text that is no CUSIP.
pub(crate) fn wanted_of_cusip(alloc: Global, fault: CusipFault) -> Result<String, AllocError> {
    match fault {
        CusipFault::Length => format!(in alloc;
            "nine characters; a spreadsheet drops zeros in front"
        ),
        CusipFault::BadChar { place: 9 } => format!(in alloc; "a digit in place 9"),
        CusipFault::BadChar { place } => format!(in alloc;
            "one of 0 to 9, A to Z, *, @ and # in place {place}"
        ),
        CusipFault::CheckDigit { want } => format!(in alloc;
            "the last digit {want}, if the eight before it are right; more often one of these is mistyped"
        ),
    }
}

// What is wanted of a field in place of what stands there.
fn wanted_of_field(alloc: Global, fault: RowFault) -> Result<String, AllocError> {
    let (first, second) = match fault {
        RowFault::Fields => ("another number of fields", ""),
        RowFault::Id => (
            "1 to 16 capital letters and digits",
            ", with no spaces or dashes",
        ),
        RowFault::Settle => ("a date such as 2025-03-04", ", of the years 1900 to 2199"),
        RowFault::Buyer(fault) | RowFault::Seller(fault) | RowFault::Account(fault) =>
            wanted_number(fault, "from 1 to 9999"),
        RowFault::Quantity(fault) => wanted_number(fault, "from 1 to 999999999999"),
        RowFault::Shares(fault) => wanted_number(fault, "from 0 to 10^18"),
        RowFault::Cusip(fault) => return wanted_of_cusip(alloc, fault),
    };
    format!(in alloc; "{first}{second}")
}

// What stands where something is found, and what was wanted.
fn told(alloc: Global, found: &Found) -> Result<String, AllocError> {
    let there = shown(alloc, found.text.as_slice())?;
    match found.finding {
        Finding::NoHead(head) => told_of_head(alloc, head, found, &there),
        Finding::HeadOrder => format!(in alloc;
            "the first line is `{there}`: the heads stand in the order [openings], [trades], [script], the first one in the first line"
        ),
        Finding::NoHeader(table) => told_of_header(alloc, table, found, &there),
        Finding::Row { table, fault, .. } => told_of_row(alloc, table, fault, found, &there),
        Finding::OpeningRefused { fault, .. } => told_of_refusal(alloc, fault, found, &there),
        Finding::Line { .. } => {
            let wanted = wanted_of_line(alloc, found.text.as_slice())?;
            format!(in alloc; "`{there}`: {wanted}")
        }
    }
}

// The same of a head that is missing.
fn told_of_head(
    alloc: Global,
    head: Head,
    found: &Found,
    there: &String,
) -> Result<String, AllocError> {
    let head = head.text();
    let wanted =
        "the head alone in its line, with small letters and brackets, and nothing before or behind it";
    if found.text.is_empty() {
        return format!(in alloc; "no line is `{head}`: {wanted}");
    }
    let unseen = unseen_of(found.text.as_slice());
    format!(in alloc; "no line is `{head}`, and here stands `{there}`: {wanted}{unseen}")
}

// What is said of bytes beside a head that an editor does not show.
fn unseen_of(line: &[u8]) -> &'static str {
    if line.starts_with(&[0xEF, 0xBB, 0xBF]) {
        "; \\xef\\xbb\\xbf is a byte order mark: save the text as UTF-8 without one"
    } else if line.ends_with(b"\r") {
        "; \\x0d is a carriage return that no line feed follows"
    } else {
        ""
    }
}

// The same of a first record that is not the header.
fn told_of_header(
    alloc: Global,
    table: Table,
    found: &Found,
    there: &String,
) -> Result<String, AllocError> {
    let wanted = header_of(alloc, table)?;
    let place = found.place;
    let count = found.fields;
    let fields = if count == 1 { "field" } else { "fields" };
    format!(in alloc;
        "the first row has {count} {fields}, and the one in place {place} is `{there}`: the header {wanted}, word for word"
    )
}

// The same of a row with a fault.
fn told_of_row(
    alloc: Global,
    table: Table,
    fault: RowFault,
    found: &Found,
    there: &String,
) -> Result<String, AllocError> {
    let row = row_word(table);
    let id = shown(alloc, first_line(found.id.as_slice()))?;
    let open = open_quote(alloc, found)?;
    if matches!(fault, RowFault::Fields) {
        let count = found.fields;
        let fields = if count == 1 { "field" } else { "fields" };
        let header = header_of(alloc, table)?;
        return format!(in alloc; "{row} `{id}` has {count} {fields}: {header}{open}");
    }
    let field = field_word(fault);
    let wanted = wanted_of_field(alloc, fault)?;
    if found.place == 1 {
        return format!(in alloc; "{field} `{there}`: {wanted}{open}");
    }
    format!(in alloc; "{row} `{id}`, {field} `{there}`: {wanted}{open}")
}

// The first line of a text.
fn first_line(text: &[u8]) -> &[u8] {
    line_text(text.split_at(line_size(text)).0)
}

// Whether something is found in a row that begins as the header does.
fn is_of_second_header(found: &Found) -> bool {
    let id = found.id.as_slice();
    match found.finding {
        Finding::Row { table, .. } => match table {
            Table::Openings => id == b"account".as_slice() && found.fields == 3,
            Table::Trades => id == b"trade".as_slice() && found.fields == 6,
        },
        _ => false,
    }
}

// What is said of a row that goes over several lines.
fn open_quote(alloc: Global, found: &Found) -> Result<String, AllocError> {
    if found.last == found.line {
        return Ok(String::new(alloc));
    }
    let last = found.last;
    let more = last.saturating_sub(found.line);
    format!(in alloc;
        "; a quote (\") opens here, and takes the {more} lines up to line {last} into the row"
    )
}

// The same of an opening against which something speaks.
fn told_of_refusal(
    alloc: Global,
    fault: OpeningFault,
    found: &Found,
    there: &String,
) -> Result<String, AllocError> {
    let id = shown(alloc, found.id.as_slice())?;
    match fault {
        OpeningFault::Double => format!(in alloc;
            "account `{id}` has an opening in the issue in an earlier row: one row for an account and an issue, with both added up"
        ),
        _ => format!(in alloc;
            "account `{id}`, shares `{there}`: with it the issue has more than 10^18 shares"
        ),
    }
}

// The line that tells of something found, in a line of its file.
fn line_of(alloc: Global, name: &str, line: u64, told: &str) -> Result<String, AllocError> {
    format!(in alloc; "{name}:{line}: {told}\n")
}

/// The line that tells of something found in a file of this name, before whose first line so many stand in the
/// text: the name, the line, what stands there, and what was wanted. It is empty where the row was told to be a
/// second header.
pub fn found_line(
    alloc: Global,
    name: &str,
    before: u64,
    found: &Found,
) -> Result<String, AllocError> {
    let line = found.line.saturating_sub(before);
    if is_of_second_header(found) {
        if found.place > 1 {
            return Ok(String::new(alloc));
        }
        return line_of(
            alloc,
            name,
            line,
            "a second header: one header behind the head",
        );
    }
    let told = told(alloc, found)?;
    line_of(alloc, name, line, told.as_str())
}

// How many more there are of a part than are kept.
fn more_of(count: u64) -> u64 {
    count.saturating_sub(MOST_OF_A_PART)
}

/// The last line: how much is wrong, of which part, and how much of it was not told one by one.
pub fn count_line(alloc: Global, found: &Findings) -> Result<String, AllocError> {
    let heads = found.count(Part::Heads);
    let openings = found.count(Part::Openings);
    let trades = found.count(Part::Trades);
    let script = found.count(Part::Script);
    let all = heads
        .saturating_add(openings)
        .saturating_add(trades)
        .saturating_add(script);
    let faults = if all == 1 { "fault" } else { "faults" };
    let counts = format!(in alloc;
        "{all} {faults}: {heads} of heads and headers, {openings} of openings, {trades} of trades, {script} of the script"
    )?;
    let more = more_of(openings)
        .saturating_add(more_of(trades))
        .saturating_add(more_of(script));
    if more == 0 {
        return format!(in alloc; "{counts}\n");
    }
    format!(in alloc; "{counts}; {more} of these are not shown\n")
}

// The file of an earlier row, where it is another one.
fn other_file(alloc: Global, name: &str, earlier_name: &str) -> Result<String, AllocError> {
    if name == earlier_name {
        return Ok(String::new(alloc));
    }
    format!(in alloc; " of {earlier_name}")
}

/// The line that notes a row of trades whose id an earlier row has, with the line of the first of these. Each of
/// the two stands in a file of its name, before whose first line so many stand in the text.
pub fn repeat_line(
    alloc: Global,
    name: &str,
    before: u64,
    earlier_name: &str,
    earlier_before: u64,
    repeat: &Repeat,
) -> Result<String, AllocError> {
    let id = repeat.id;
    let earlier = repeat.earlier_line.saturating_sub(earlier_before);
    let file = other_file(alloc, name, earlier_name)?;
    let told = format!(in alloc;
        "note: trade `{id}` stands in line {earlier}{file} too: a run takes the first that is accepted, and refuses the other"
    )?;
    line_of(
        alloc,
        name,
        repeat.line.saturating_sub(before),
        told.as_str(),
    )
}

/// The last line of the notes: how many rows of trades have an id that an earlier one has, and how many of these
/// were not told one by one.
pub fn repeats_line(alloc: Global, repeats: &Repeats) -> Result<String, AllocError> {
    let count = repeats.count;
    let come = if count == 1 { "id comes" } else { "ids come" };
    let more = more_of(count);
    if more == 0 {
        return format!(in alloc; "{count} {come} again\n");
    }
    format!(in alloc; "{count} {come} again; {more} of these are not shown\n")
}
