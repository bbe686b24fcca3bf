/// What `cnsd run --help` teaches after the options: the shape of the input with an example, the
/// commands of a script, and the exit statuses.
pub(crate) const RUN: &str = "\
The input is one text of three sections, for example:

  [openings]
  account,cusip,shares
  1,037833100,60
  [trades]
  trade,settle,buyer,seller,cusip,quantity
  A1,2025-03-04,2,1,037833100,60
  [script]
  TAKE ALL
  CYCLE NIGHT 2025-03-04
  PUMP
  ALLOCATE 037833100
  PUMP
  REPORT

Commands of a script, one a line; blank lines and lines that begin with # are skipped:
  TAKE n, TAKE ALL              Take the next n rows of trades, or all the rest
  EXEMPT member cusip shares    Exempt so many shares of a member from covers
  PRIORITY member cusip ON|OFF  Set a member's priority in an issue
  CYCLE NIGHT|DAY date          Net the trades that settle by the date, and order covers
  LOT cusip                     Open a lot with all free shares of an issue
  POUR lot                      Pour into a lot what has become free
  RESERVE lot member            Draw a member's ticket from a lot
  LOOK lot                      Tell what was poured and drawn, and whether the lot is sealed
  SEAL lot                      Let no more tickets be drawn from a lot
  CLOSE lot                     Grant the shares to the tickets, and order deliveries
  ALLOCATE cusip                Open a lot, draw each ticket of its plan, and close it
  BESIDE cusip k                The same, with the next k lines run once the lot is open
  SEND n                        Put order n on the link
  ORDER k                       Let packet k of the link of orders arrive at the depository
  REPLY k                       Let packet k of the link of replies arrive at the book
  DEPOSIT member n cusip shares, WITHDRAW member n cusip shares
                                Bring shares from outside to a member, or take some out of
                                its account, by the member's own instruction n
  PUMP                          Send each unconfirmed order, and let its packets arrive
  FAIL CLEAR|DEPOT KEEP|DROP    Let the next commit of a node fail; its record stands or not
  RESTART CLEAR|DEPOT           Let a node read its journal again
  REPORT                        Tell positions, pools and balances

With --workers 1 to 64, threads draw the tickets of the lots that ALLOCATE and BESIDE open, one group of
members after another, and the k lines of BESIDE run in the meantime. In which order the members of one
group draw, and which of them draw before a SEAL, may then differ from run to run; with 0 it never does.

With --shake NUMBER each PUMP is preceded by 16 draws of a random generator that the number starts. Each
draws an order, and sends it; or a packet of either link, and lets it arrive; or nothing. So packets come
again and out of turn. One NUMBER gives one run; the draws print lines as SEND, ORDER and REPLY do.

With --openings, --trades and --script the input is the text that these files make: each head, and behind it
what stands in its files. Of several files of trades the header of the first one counts, and the others have
the same. A part that is left out is empty.

With --strict the text is the same, and a line of counts on standard error ends it.

With --journal, and with --progress, what a line of the script tells is written as the line ends; else the text
is written where it has grown by 64 KiB, and at the end.

Exit status:
  0  all was read, run and written
  1  the command line is wrong
  2  the input cannot be read, is too long, or has bad sections or bad rows
  3  there was no memory, the output failed, or a journal failed; with --strict also: a device failed
  4  with --strict: a row is faulty, or a trade, a line of the script or an event was refused";

/// What `cnsd check --help` teaches after the options.
pub(crate) const CHECK: &str = "\
Each line of the output is FILE:LINE: what stands there: what was wanted. The last line counts them; of the rows
of a section, and of the lines of a script, the first 1000 are told. Where nothing is wrong nothing is written.

Told are heads and headers that are not as they must be, each fault of each row, openings that do not hold, and
lines of the script that are no commands; where heads are missing, what stands behind lines that name them, such
as Trades:, is told too. Whether a trade or an event is refused, only a run says. Trades with an id that an
earlier one has are noted on standard error: a run refuses the later one.

Exit status:
  0  nothing is wrong
  1  something is, or the command line is wrong
  2  a file cannot be read, or the input is too long
  3  there was no memory, or the output failed";

/// What `cnsd table --help` teaches after the options.
pub(crate) const TABLE: &str = "\
The first row names the columns: report,date,kind,row,cusip,account,free,lent,out,shares. Each line of a report
that tells a position (row POS), a pool (POOL) or a balance (BAL) is a row. report is the number of the report in
the text, date and kind are those of its cycle, and empty where it has none. A pool has its free, lent and out
shares, the others their shares. CUSIPs and accounts stand in quotes: have a spreadsheet read quoted fields as
text, or it drops the zeros in front. Lines outside of reports are passed over.

  cnsd run FILE | cnsd table --last > table.csv

Exit status:
  0  all was read and written
  1  the command line is wrong
  2  the text cannot be read, or is not what a run wrote: a line in a report is none of a report, or the last
     report has no END
  3  there was no memory, or the output failed";

/// What `cnsd cusip --help` teaches after the options.
pub(crate) const CUSIP: &str = "\
For each text one line: ok, or its first fault.
  Length        it does not have nine characters
  BadChar P     the character in place P, counted from 1, may not stand there
  CheckDigit D  the last digit does not fit the first eight; D is the digit that would. So CheckDigit 0 asks for
                a 0, and does not say that the digit 0 is wrong. More often one of the eight is mistyped

Exit status:
  0  all are CUSIPs
  1  one is none, or the command line is wrong
  3  there was no memory, or the output failed";

/// What `cnsd journal --help` teaches after the options.
pub(crate) const JOURNAL: &str = "\
dump FILE writes each record of a journal's file in a line, with its place and byte, and what follows the
last one: nothing, what a crash may leave, or damage. With --csv it writes rows.

check DIR looks at clear.journal and depot.journal of a folder: each by itself, and both together. Its last
line is `agreed`, or says how many faults it has told. Both only read.

Exit status: 0 where nothing is wrong; 1 where something is, or the command line is faulty;
2 where a file cannot be read; 3 for want of memory, or where the output fails";

/// What `cnsd explain --help` teaches after the options.
pub(crate) const EXPLAIN: &str = "\
Writes the position as a register: each due trade and each confirmed movement, with the sum so far; then
what waits; then the balance in the same form. It only reads.

Exit status: 0; 1 where a node cannot be opened from its journal, as a check tells, or the command
line is faulty; 2 where a file cannot be read; 3 for want of memory, or where the output fails";
