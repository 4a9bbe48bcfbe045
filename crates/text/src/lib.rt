// Text in a buffer of bytes: decimal numbers read and written, a page that texts are written to, and a buffer filled from a reader.
#![tactic(auto)]

ghost use Rattle.std.specs.Prelude.{◌≡◌, true, [], ◌∷◌, ◌+◌, ◌<◌, ◌≤◌, length, get_or, take};
ghost use Rattle.std.specs.Char.{is_ascii_digit};
ghost use Rattle.std.specs.List.{take_while};
ghost use Rattle.text.specs.Decimal.{all_digits, digits_upto, value_of, number_upto, decimal};

use std::io::{ErrorKind, Read};

// The byte at a place, 0 past the end. No Option: the definitions of the picture read 0 there, so each reader would put 0 for None.
pub fn byte_at(text: &[u8], at: usize) -> u8
    ensures { result ≡ get_or text.now at 0 }
{
    text.get(at).copied().unwrap_or(0)
}

// How many digits a text begins with.
fn leading_digits(text: &[u8]) -> usize
    ensures { result ≡ length (take_while is_ascii_digit text.now) }
{
    text.iter().take_while(|b| b.is_ascii_digit()).count()
}

// How many digits stand from a place on, at most so many. Not one chain with `skip` and `take`: its count did not prove.
pub fn digits(text: &[u8], at: usize, most: usize) -> usize
    ensures { result ≡ digits_upto most text.now at }
{
    if text.len() < at {
        return 0;
    }
    let rest = &text[at..];
    leading_digits(&rest[..most.min(rest.len())])
}

// The value of digits. By hand: `parse` reads a `str` and can decline, and here are bytes that are digits.
fn value(digits: &[u8]) -> u64
    requires { (all_digits digits.now ≡ true) × (length digits.now ≤ 19) }
    ensures { result ≡ value_of digits.now }
{
    let mut v = 0u64;
    for b in digits {
        v = 10 * v + u64::from(*b - b'0');
    }
    v
}

// The number that stands at a place, of at most so many digits; 0 where there is none. No Option: its reader has tested before that
// digits stand there, and would have a None that never comes.
pub fn read_number(text: &[u8], at: usize, most: usize) -> u64
    requires { most ≤ 19 }
    ensures { result ≡ number_upto most text.now at }
{
    let n = digits(text, at, most);
    if n == 0 {
        return 0;
    }
    value(&text[at..at + n])
}

// A page of text: a buffer, and the place in it where the next byte is written. It stands in memory that is lent, and not in a String,
// since the programs have no heap; so numbers are written by hand as well.
#[derive(Drop)]
pub struct Page<'a> {
    pub out: &'a mut [u8],
    pub at: usize,
}

impl<'a> Page<'a> {
    ghost use Rattle.text.specs.steps.Writing.{HasRoom, Writes};

    // A byte.
    pub fn put(&mut self, b: u8)
        requires { HasRoom self.old 1 }
        ensures { Writes (b ∷ []) self.old self.new }
    {
        self.out[self.at] = b;
        self.at += 1;
    }

    // A text as it is.
    pub fn copy(&mut self, text: &[u8])
        requires { HasRoom self.old (length text.now) }
        ensures { Writes text.now self.old self.new }
    {
        let end = self.at + text.len();
        self.out[self.at..end].copy_from_slice(text);
        self.at = end;
    }

    // A number in decimal.
    pub fn number(&mut self, n: u64)
        requires { HasRoom self.old (length (decimal n)) }
        ensures { Writes (decimal n) self.old self.new }
    {
        if 10 <= n {
            self.number(n / 10);
        }
        self.put(b'0' + (n % 10) as u8);
    }
}

// Bytes from a reader, until it ends, a read fails or buf is full; how many. A read that a signal cuts short is made again.
pub fn read_full<R: Read>(reader: &mut R, buf: &mut [u8]) -> usize
    ensures { result ≤ length buf.new }
{
    let mut done = 0usize;
    // A read that a signal cuts short reads nothing, so the number of rounds ends the loop.
    for _ in 0..u64::MAX {
        if buf.len() <= done {
            break;
        }
        match reader.read(&mut buf[done..]) {
            Ok(0) => break,
            Ok(n) => done += n,
            Err(e) => {
                if e.kind() != ErrorKind::Interrupted {
                    break;
                }
            }
        }
    }
    done
}
