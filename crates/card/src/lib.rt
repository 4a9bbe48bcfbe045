// The card that a picture was taken on: whether its colour is given, and the colour that a text of six hexadecimal digits names.
#![tactic(auto)]

ghost use Rattle.std.specs.Prelude.{◌≡◌, true, ◌<◌};
ghost use Rattle.card.specs.Hex.{all_hex};
ghost use Rattle.card.specs.Card.{is_colour_text, text_channel, card_of, is_readable};
ghost use Rattle.card.specs.steps.Named.{colour_named, colour_given, defined_card};
ghost use Rattle.card.specs.steps.Digit.{digit_of};

use colour::Rgb;
use colour::picture::Reference;

// Where the reference colour comes from: the picture's border, where none is given; the colour that is given; or a text was given that
// names no colour.
#[derive(Clone, Copy)]
pub enum Card {
    Border,
    Given(Reference),
    Unreadable,
}

// The value of a hexadecimal digit, in either case.
fn hex(b: u8) -> Option<u32>
    ensures { result ≡ digit_of b }
{
    (b as char).to_digit(16)
}

// Whether every byte of a text is a hexadecimal digit.
fn all_hex(text: &[u8]) -> bool
    ensures { result ≡ all_hex text.now }
{
    text.iter().all(|b| hex(*b).is_some())
}

// Channel c of a text of six digits: two of them are a byte, and the channel is that byte over 255.
fn channel(text: &[u8], c: usize) -> f64
    requires { (is_colour_text text.now ≡ true) × (c < 3) }
    ensures { result ≡ text_channel text.now c }
{
    let high = hex(text[2 * c]).unwrap();
    let low = hex(text[2 * c + 1]).unwrap();
    colour::weights::weight((16 * high + low) as u8)
}

// The colour of a text, where it is six hexadecimal digits. All of them are tested before the first is read, as the definition does, so
// `channel` may unwrap.
pub fn colour_named(text: &[u8]) -> Option<Reference>
    ensures { colour_given result ≡ colour_named text.now }
{
    if text.len() != 6 {
        return None;
    }
    if !all_hex(text) {
        return None;
    }
    let r = channel(text, 0);
    let g = channel(text, 1);
    let b = channel(text, 2);
    let colour = Rgb { r, g, b };
    Some(Reference { colour })
}

// The card of a text: its colour where it is six hexadecimal digits.
pub fn card_of(text: &[u8]) -> Card
    ensures { defined_card result ≡ card_of text.now }
{
    match colour_named(text) {
        Some(named) => Card::Given(named),
        None => Card::Unreadable,
    }
}

// Whether a card can be cut on: no colour was given, or one that can be read.
pub fn readable(card: Card) -> bool
    ensures { result ≡ is_readable (defined_card card) }
{
    !matches!(card, Card::Unreadable)
}
