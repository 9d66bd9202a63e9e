// The line that answers a command, put into a buffer of bytes. The buffer is the caller's, of any length, and the place in it goes
// beside it: a struct that borrows it would be no plainer.
ghost use Rattle.std.specs.Prelude.{◌≡◌, [], ◌∷◌, ◌+◌, ◌*◌, ◌^◌, ◌≤◌, ◌<◌, length};
ghost use Rattle.schedule.specs.Text.{decimal_in, decimal, fields_text, word_shown, answer_text};
ghost use Rattle.schedule.specs.Inner.{Printed};

fn put_byte(out: &mut [u8], at: usize, b: u8) -> usize
    requires { at < length out.old }
    ensures { Printed 1 out.old at (b ∷ []) out.new result }
{
    out[at] = b;
    at + 1
}

// The digits of n, which has at most `room` of them. They are made here, since `answer_text` says every byte of them and there is no heap.
fn put_digits(out: &mut [u8], at: usize, n: u64, room: usize) -> usize
    requires { (0 < room) × (n < 10 ^ room) × (at + room ≤ length out.old) }
    ensures { Printed room out.old at (decimal_in room n) out.new result }
{
    if n < 10 {
        return put_byte(out, at, b'0' + n as u8);
    }
    let next = put_digits(out, at, n / 10, room - 1);
    put_byte(out, next, b'0' + (n % 10) as u8)
}

fn put_number(out: &mut [u8], at: usize, n: u64) -> usize
    requires { at + 20 ≤ length out.old }
    ensures { Printed 20 out.old at (decimal n) out.new result }
{
    put_digits(out, at, n, 20)
}

// One space and a number.
fn put_field(out: &mut [u8], at: usize, n: u32) -> usize
    requires { at + 21 ≤ length out.old }
    ensures { Printed 21 out.old at (32 ∷ decimal n) out.new result }
{
    let next = put_byte(out, at, b' ');
    put_number(out, next, u64::from(n))
}

fn put_fields(out: &mut [u8], at: usize, v: &[u32]) -> usize
    requires { at + length v.now * 21 ≤ length out.old }
    ensures { Printed (length v.now * 21) out.old at (fields_text v.now) out.new result }
{
    let mut k = at;
    for n in v {
        k = put_field(out, k, *n);
    }
    k
}

// The page word that is shown.
fn shown(code: u32, word: u32) -> u32
    ensures { result ≡ word_shown code word }
{
    if code == 1 { word } else { 0 }
}

// The seven numbers of `answer_text`: line number, code, client, tag number, tag client, page word and mark, `owner` being the tag's client and `word` the first of the page.
#[inline] // once a line: without the hint the program needs more instructions a line
pub fn put_answer(
    out: &mut [u8],
    at: usize,
    line: u64,
    code: u32,
    client: u32,
    number: u32,
    owner: u32,
    word: u32,
    mark: u32,
) -> usize
    requires { at + 147 ≤ length out.old }
    ensures { Printed 147 out.old at (answer_text line code client number owner word mark) out.new result }
{
    let v = [code, client, number, owner, shown(code, word), mark];
    let a = put_number(out, at, line);
    let b = put_fields(out, a, &v);
    put_byte(out, b, b'\n')
}

// The answer to a malformed line: the paper's code 18, and zeros.
pub fn put_malformed(out: &mut [u8], at: usize, line: u64) -> usize
    requires { at + 147 ≤ length out.old }
    ensures { Printed 147 out.old at (answer_text line 18 0 0 0 0 0) out.new result }
{
    put_answer(out, at, line, 18, 0, 0, 0, 0, 0)
}
