// A look at the coming pass: how many pixels the pass would take off the object. The pass itself is growth's.
#![tactic(auto)]

ghost use Rattle.std.specs.Prelude.{◌≡◌, ◌≤◌, length};
ghost use Rattle.next_pass.specs.NextPass.{newly_on};

// How many pixels are counted at a time: not more than a byte can count.
const BLOCK: usize = 240;

// How many pixels of a block are on in `after` and off in `before`. By an index: over `zip` it did not prove that the two bytes of a
// step stand at one place.
fn block(before: &[u8], after: &[u8]) -> u8
    requires after_len { length after.now ≡ length before.now }
    requires before_len_bound { length before.now ≤ 255 }
    ensures { result ≡ newly_on (length before.now) before.now after.now }
{
    let mut n = 0u8;
    for i in 0..before.len() {
        n += u8::from((after[i] != 0) & (before[i] == 0));
    }
    n
}

// How many pixels are on in `after` and off in `before`. By an index for the same reason: two `chunks` side by side.
pub fn newly_on(before: &[u8], after: &[u8]) -> u64
    requires { length after.now ≡ length before.now }
    ensures { result ≡ newly_on (length before.now) before.now after.now }
{
    let mut n = 0u64;
    for i in (0..before.len()).step_by(BLOCK) {
        let end = i + BLOCK.min(before.len() - i);
        n += u64::from(block(&before[i..end], &after[i..end]));
    }
    n
}
