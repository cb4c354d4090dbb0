// The lines of the day list, printed into a lent output from an offset on. Follows docs/RULES.md, "The board and the
// day list".
#![tactic(auto)]

ghost use Rattle.std.specs.Prelude.{◌≡◌, [], ◌∷◌, ◌+◌, ◌≤◌, ◌%◌, length, set, drop};
ghost use Rattle.def_day_lines.specs.Text.{decimal, jobs_word, workers_word, left_word, refused_word, broken_word, ◌␣◌};
ghost use Rattle.def_day_lines.specs.Text.{line};
ghost use Rattle.day_text.specs.Page.{page, print, print_line, Roomy};

// No line starts past this offset, so that no offset wraps; every day list ends long before it.
const MOST_OFFSET: usize = 4294967296;

// A word or an offset has at most so many digits.
const MOST_DIGITS: usize = 20;

// Stores a byte, or nothing past the end.
fn put(out: &mut [u8], at: usize, byte: u8)
    ensures { out.new ≡ set out.old at byte }
{
    if at < out.len() {
        out[at] = byte;
    }
}

// A byte, stored where its offset is below the limit.
fn emit(out: &mut [u8], limit: usize, at: usize, byte: u8) -> usize
    requires { Roomy at 1 }
    ensures { page result out.new ≡ print limit (page at out.old) (byte ∷ []) }
{
    if at < limit {
        put(out, at, byte);
    }
    at + 1
}

// The bytes of a text.
fn emit_text(out: &mut [u8], limit: usize, at: usize, text: &[u8]) -> usize
    requires { Roomy at (length text.now) }
    ensures { page result out.new ≡ print limit (page at out.old) text.now }
{
    let mut next = at;
    for byte in text {
        next = emit(out, limit, next, *byte);
    }
    next
}

// The last digit of a number.
fn digit(n: u64) -> u8
    ensures { result ≡ 48 + n % 10 }
{
    b'0' + ((n % 10) as u8)
}

// Writes a number's digits from the last to the first, and answers where the first stands.
fn write_digits(bytes: &mut [u8; MOST_DIGITS], number: u64) -> usize
    ensures { (drop result bytes.new ≡ decimal number) × (result ≤ 20) }
{
    let mut rest = number;
    for from in (0..MOST_DIGITS).rev() {
        bytes[from] = digit(rest);
        if rest < 10 {
            return from;
        }
        rest /= 10;
    }
    0
}

// A number in decimal.
fn emit_number(out: &mut [u8], limit: usize, at: usize, number: u64) -> usize
    requires { Roomy at 20 }
    ensures { page result out.new ≡ print limit (page at out.old) (decimal number) }
{
    let mut bytes = [0u8; MOST_DIGITS];
    let from = write_digits(&mut bytes, number);
    emit_text(out, limit, at, &bytes[from..])
}

// A number that ends a line.
fn emit_last(out: &mut [u8], limit: usize, at: usize, number: u64) -> usize
    requires { Roomy at 21 }
    ensures { page result out.new ≡ print limit (page at out.old) (line (decimal number)) }
{
    let next = emit_number(out, limit, at, number);
    emit(out, limit, next, b'\n')
}

// Two numbers that end a line.
fn emit_two(out: &mut [u8], limit: usize, at: usize, first: u64, second: u64) -> usize
    requires { Roomy at 42 }
    ensures { page result out.new
        ≡ print limit (page at out.old) (line (decimal first ␣ decimal second)) }
{
    let next = emit_number(out, limit, at, first);
    let last = emit(out, limit, next, b' ');
    emit_last(out, limit, last, second)
}

// "The first line gives jobs entered and workers."
pub fn jobs_line(out: &mut [u8], limit: usize, at: usize, made: u32, workers: u32) -> usize
    ensures { page result out.new
        ≡ print_line limit (page at out.old)
        (line (jobs_word ␣ (decimal made ␣ (workers_word ␣ decimal workers)))) }
{
    if MOST_OFFSET < at {
        return at;
    }
    let first = emit_text(out, limit, at, b"jobs ");
    let second = emit_number(out, limit, first, made as u64);
    let last = emit_text(out, limit, second, b" workers ");
    emit_last(out, limit, last, workers as u64)
}

// "Each middle line gives the hand-out number, name and worker."
pub fn handed_line(
    out: &mut [u8],
    limit: usize,
    at: usize,
    handed: usize,
    name: u32,
    worker: u32,
) -> usize
    ensures { page result out.new
        ≡ print_line limit (page at out.old) (line (decimal handed ␣ (decimal name ␣ decimal worker))) }
{
    if MOST_OFFSET < at {
        return at;
    }
    let next = emit_number(out, limit, at, handed as u64);
    let last = emit(out, limit, next, b' ');
    emit_two(out, limit, last, name as u64, worker as u64)
}

// "The last gives jobs not finished."
pub fn left_line(out: &mut [u8], limit: usize, at: usize, left: u32) -> usize
    ensures { page result out.new
        ≡ print_line limit (page at out.old) (line (left_word ␣ decimal left)) }
{
    if MOST_OFFSET < at {
        return at;
    }
    let last = emit_text(out, limit, at, b"left ");
    emit_last(out, limit, last, left as u64)
}

// "A refused entry puts refused I N before the first line."
pub fn refused_line(out: &mut [u8], limit: usize, at: usize, entry: usize, number: u32) -> usize
    ensures { page result out.new
        ≡ print_line limit (page at out.old) (line (refused_word ␣ (decimal entry ␣ decimal number))) }
{
    if MOST_OFFSET < at {
        return at;
    }
    let next = emit_text(out, limit, at, b"refused ");
    emit_two(out, limit, next, entry as u64, number as u64)
}

// "A sheet that cannot be read prints only broken O N."
pub fn broken_line(out: &mut [u8], limit: usize, at: usize, offset: usize, number: u32) -> usize
    ensures { page result out.new
        ≡ print_line limit (page at out.old) (line (broken_word ␣ (decimal offset ␣ decimal number))) }
{
    if MOST_OFFSET < at {
        return at;
    }
    let next = emit_text(out, limit, at, b"broken ");
    emit_two(out, limit, next, offset as u64, number as u64)
}
