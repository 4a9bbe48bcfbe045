// Two pictures that agree on the border and within p + 4 of the ground have one outline; p + 3 is not enough. For p 1, 2, 3, 4,
// 8 and 12 stdin has three pairs of square cards of rings that differ in the middle pixel only. Ring d, counted from the border
// inwards, has the grey 1 - 1.25^(d - p - 4), and the tolerance is 0, so the ground is the border in all of them.
// - Of side 2 (p + 4) + 1: they agree within p + 3 and not within p + 4 of the ground, and their masks are not the same.
// - Of side 2 (p + 5) + 1, the middle as before, and then 0 and 1: they agree within p + 4, and their masks are the same.
// The same again with the colour of the card given, fefefe or r = 254/255, by a tolerance of 0.00393. Ring 0 has the grey 1 and,
// in every third pixel, 253/255, which are close to r; by the median there is no ground. Ring d after it has the grey
// r - r (1.25^d - 1) / (1.25^(p + 4) - 1).
// - The last pair, 6 by 1 with white given: all black, which has no ground, and five white pixels of six. Their borders differ,
//   and so do their masks.
// stdout is what mask.rs answered, and for a given colour its functions put together with that colour for the median.
#![tactic(auto)]

use std::io;

fn main(rt: HostRuntime) -> io::Result<()> {
    replay::run(&rt)
}
