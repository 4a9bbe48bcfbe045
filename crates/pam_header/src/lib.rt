// Reading the header of a PAM file, line by line.
#![tactic(auto)]

ghost use Rattle.std.specs.Prelude.{◌≡◌};
ghost use Rattle.std.specs.Char.{is_ascii_digit};
ghost use Rattle.std.specs.List.{list_all, position};
ghost use Rattle.pam_header.specs.Header.{is_text, is_skipped, is_numeral, lines_of, header_by, header_of};
ghost use Rattle.pam_header.specs.steps.Reading.{is_newline, side_on, line_of, with_line, header_from};

// The most bytes of a header, up to and with the newline of ENDHDR.
const MOST_HEADER: usize = 4096;

// The most digits of a number.
const MOST_DIGITS: usize = 5;

// What a header says: the sides, and where the pixels stand.
#[derive(Clone, Copy, Debug, PartialEq, Eq)]
pub struct Header {
    pub height: usize,
    pub width: usize,
    pub body: usize,
}

// A line between P7 and ENDHDR: an empty one or a comment, or one of the five fields.
#[derive(Clone, Copy)]
enum Line {
    Skipped,
    Width(usize),
    Height(usize),
    Depth,
    Maxval,
    Tupltype,
}

// The fields on the lines so far: the sides, and which of the others were seen.
#[derive(Clone, Copy, Default)]
struct Fields {
    width: Option<usize>,
    height: Option<usize>,
    depth: bool,
    maxval: bool,
    tupltype: bool,
}

// ---- what a line is

// Whether a line is a text and nothing more.
fn is_text(line: &[u8], text: &[u8]) -> bool
    ensures { result ≡ is_text text.now line.now }
{
    line == text
}

// Whether a line is empty or begins with '#'.
fn is_skipped(line: &[u8]) -> bool
    ensures { result ≡ is_skipped line.now }
{
    line.is_empty() | line.starts_with(b"#")
}

// Whether all bytes are digits.
fn all_digits(text: &[u8]) -> bool
    ensures { result ≡ list_all is_ascii_digit text.now }
{
    text.iter().all(|b| b.is_ascii_digit())
}

// Whether these are 1 to 5 digits, the first not '0'.
fn is_numeral(digits: &[u8]) -> bool
    ensures { result ≡ is_numeral digits.now }
{
    all_digits(digits)
        & (digits.len() <= MOST_DIGITS)
        & !digits.is_empty()
        & !digits.starts_with(b"0")
}

// The number on a line that is a name, with its space, and a number.
fn side(line: &[u8], name: &[u8]) -> Option<usize>
    ensures { result ≡ side_on name.now line.now }
{
    let digits = line.strip_prefix(name)?;
    if !is_numeral(digits) {
        return None;
    }
    Some(text::read_number(digits, 0, MOST_DIGITS) as usize)
}

// What a line is; None where it has no place between P7 and ENDHDR.
fn line_of(line: &[u8]) -> Option<Line>
    ensures { result ≡ line_of line.now }
{
    if is_skipped(line) {
        return Some(Line::Skipped);
    }
    if let Some(width) = side(line, b"WIDTH ") {
        return Some(Line::Width(width));
    }
    if let Some(height) = side(line, b"HEIGHT ") {
        return Some(Line::Height(height));
    }
    // No match on byte strings: it would be proved byte by byte.
    if is_text(line, b"DEPTH 4") {
        return Some(Line::Depth);
    }
    if is_text(line, b"MAXVAL 255") {
        return Some(Line::Maxval);
    }
    if is_text(line, b"TUPLTYPE RGB_ALPHA") {
        return Some(Line::Tupltype);
    }
    None
}

// ---- one line after the other

// The fields with that of one more line; None where the line has no place in a header, or its field was seen already.
fn with_line(seen: Fields, line: &[u8]) -> Option<Fields>
    ensures { result ≡ with_line seen line.now }
{
    match line_of(line)? {
        Line::Skipped => Some(seen),
        Line::Width(width) if seen.width.is_none() => Some(Fields {
            width: Some(width),
            ..seen
        }),
        Line::Height(height) if seen.height.is_none() => Some(Fields {
            height: Some(height),
            ..seen
        }),
        Line::Depth if !seen.depth => Some(Fields {
            depth: true,
            ..seen
        }),
        Line::Maxval if !seen.maxval => Some(Fields {
            maxval: true,
            ..seen
        }),
        Line::Tupltype if !seen.tupltype => Some(Fields {
            tupltype: true,
            ..seen
        }),
        _ => None,
    }
}

// The header with these fields, where all were seen, and with the pixels at a place.
fn header_from(seen: Fields, at: usize) -> Option<Header>
    ensures { result ≡ header_from seen at }
{
    match seen {
        Fields {
            width: Some(width),
            height: Some(height),
            depth: true,
            maxval: true,
            tupltype: true,
        } => Some(Header {
            height,
            width,
            body: at,
        }),
        _ => None,
    }
}

// Where the first newline of a text stands.
fn line_end(text: &[u8]) -> Option<usize>
    ensures { result ≡ position is_newline text.now }
{
    text.iter().position(|b| *b == b'\n')
}

// The header that stands in the first bytes of an input.
fn header_in(front: &[u8]) -> Option<Header>
    ensures { result ≡ header_by (lines_of front.now) }
{
    let mut rest = front.strip_prefix(b"P7\n")?;
    let mut seen = Fields::default();
    // A while: its step is the length of the line. `split` would also give the bytes behind the last newline.
    while let Some(end) = line_end(rest) {
        let line = &rest[..end];
        let more = &rest[end + 1..];
        if is_text(line, b"ENDHDR") {
            return header_from(seen, front.len() - more.len());
        }
        seen = with_line(seen, line)?;
        rest = more;
    }
    None
}

// The header of an input.
pub fn read_header(input: &[u8]) -> Option<Header>
    ensures { result ≡ header_of input.now }
{
    header_in(&input[..MOST_HEADER.min(input.len())])
}
