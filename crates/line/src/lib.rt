// The line pass of an exact Euclidean feature transform: for each place of a line the first site with the least cost + (x - i)².
// The stack has two numbers for each of its sites: the site itself, in the slice stack, and the place where it starts to lead, in
// the slice of the answers, out. No answer is written over a start that is still needed: site q does not start to lead before place q.
// The slices stay three parameters: a call that is lent a struct of several `&mut` gets no proof.
// The loops over the stack go by index: a step reads two slices at one place, and in `answer` the loop writes a part of one of them.
#![tactic(auto)]

ghost use Rattle.std.specs.Prelude.{◌≡◌, ℕ, ◌+◌, ◌*◌, ◌-◌, ◌/◌, ◌<◌, ◌≤◌, length, slice_index, IsTrue};
ghost use Rattle.line.specs.steps.Line.{most_cost, most_length, line_of};
ghost use Rattle.line.specs.steps.Lent.{Lent};
ghost use Rattle.line.specs.steps.Envelope.{Stack, Placed, Ready, Skips, Segments, InSegment};
ghost use Rattle.line.specs.steps.Run.{Ends, Lone, Ran};

// A place whose cost is above this has no site: 65,535². A number and no Option, since the costs are lent numbers.
pub const MAX_COST: u32 = 4294836225;

// What is written where the line has no site. A number and no Option, since the answers are lent numbers.
pub const NO_PLACE: u32 = 4294967295;

// A cost and the square of its place.
fn high(cost: u32, i: usize) -> u64
    requires { i < most_length }
    ensures { result ≡ cost + i * i }
{
    let d = i as u64;
    u64::from(cost) + d * d
}

// The first x at which a site is strictly better than one that lies step places to its left and is lower by rise.
// The shortest steps, which are the most frequent, take no division.
fn takeover(rise: usize, step: usize) -> usize
    requires { (0 < step) × (step < most_length) × (rise ≤ 2 * most_cost) }
    ensures { result ≡ rise / (2 * step) + 1 }
{
    if step == 1 {
        return rise / 2 + 1;
    }
    if step == 2 {
        return rise / 4 + 1;
    }
    rise / (2 * step) + 1
}

// Where a site goes on the stack: how many sites stay below it, and the place where it starts to lead.
#[derive(Clone, Copy)]
struct Spot {
    stay: usize,
    from: usize,
}

// The spot of u: those sites are taken off the top that u beats already at their own start.
// At x site i is as good as u, to its right, exactly where its height and 2x(u - i) are at most the height of u.
fn find_spot(out: &[u32], costs: &[u32], stack: &[u32], count: usize, u: usize) -> Spot
    requires { Ready out.now costs.now stack.now count u }
    ensures { Placed costs.now (slice_index stack.now) (slice_index out.now) count u result.stay result.from }
{
    let most = high(costs[u], u);
    for top in (0..count).rev() {
        let i = stack[top] as usize;
        let start = out[top] as usize;
        let far = (start * (2 * (u - i))) as u64;
        let low = high(costs[i], i);
        if low + far <= most {
            return Spot {
                stay: top + 1,
                from: takeover((most - low) as usize, u - i),
            };
        }
    }
    Spot { stay: 0, from: 0 }
}

// One site more; the new number of sites.
fn push_site(out: &mut [u32], costs: &[u32], stack: &mut [u32], count: usize, u: usize) -> usize
    requires { Ready out.old costs.now stack.old count u }
    ensures { Stack costs.now (slice_index stack.new) (slice_index out.new) (u + 1) result }
{
    let Spot { stay, from } = find_spot(out, costs, stack, count, u);
    if from < costs.len() {
        stack[stay] = u as u32;
        out[stay] = from as u32;
        return stay + 1;
    }
    stay
}

// The next place from x on that has a site; the end of the line where there is none.
// This and run_end are loops of their own: both as one function over a closure, or by `position`, were tried, and then the pass takes a
// tenth longer where every pixel or every second one is on.
fn next_site(costs: &[u32], x: usize) -> usize
    requires { x ≤ length costs.now }
    ensures { Skips costs.now x result }
{
    for k in x..costs.len() {
        if costs[k] <= MAX_COST {
            return k;
        }
    }
    costs.len()
}

// The stack of the whole line; the number of its sites.
fn build(out: &mut [u32], costs: &[u32], stack: &mut [u32]) -> usize
    requires { Lent out.old costs.now stack.old }
    ensures { Stack costs.now (slice_index stack.new) (slice_index out.new) (length costs.now) result }
{
    let mut count = 0;
    let mut u = 0;
    // A while: a step goes over all places up to the next site.
    while u < costs.len() {
        if costs[u] <= MAX_COST {
            count = push_site(out, costs, stack, count, u);
            u += 1;
        } else {
            u = next_site(costs, u + 1);
        }
    }
    count
}

// The best site of each place, segment by segment from the right; the part of the line starts at base.
fn answer(out: &mut [u32], stack: &[u32], count: usize, base: usize)
    requires { Segments out.old stack.now count base }
    ensures { (x : ℕ) → x < length out.old → InSegment out.old stack.now count base x (slice_index out.new x) }
{
    let mut end = out.len();
    for q in (0..count).rev() {
        let from = out[q] as usize;
        let v = (base + stack[q] as usize) as u32;
        out[from..end].fill(v);
        end = from;
    }
}

// The line pass over a part of the line that starts at base.
fn run(out: &mut [u32], costs: &[u32], stack: &mut [u32], base: usize)
    requires lent { Lent out.old costs.now stack.old }
    requires low { base ≤ most_length }
    ensures { Ran out.new costs.now base }
{
    let count = build(out, costs, stack);
    if count == 0 {
        out.fill(NO_PLACE);
        return;
    }
    answer(out, stack, count, base);
}

// The end of the run that holds x: behind the next place of cost 0, or the end of the line.
fn run_end(costs: &[u32], x: usize) -> usize
    requires { x < length costs.now }
    ensures { Ends costs.now x result }
{
    for k in x..costs.len() {
        if costs[k] == 0 {
            return k + 1;
        }
    }
    costs.len()
}

// Whether the place behind x has cost 0, and x is not the first.
fn lone(costs: &[u32], x: usize) -> bool
    requires { x < length costs.now }
    ensures { IsTrue result → Lone costs.now x }
{
    0 < x && x + 1 < costs.len() && costs[x + 1] == 0
}

// For each place of a line the first site with the least cost + (x - i)²; NO_PLACE where the line has no site.
// A place of cost 0 is its own answer, and the answer of a place behind it that has a cost;
// sites beyond it do not count on this side of it. So the line is done run by run: a run starts at the place before x.
pub fn line(out: &mut [u32], costs: &[u32], stack: &mut [u32])
    requires { Lent out.old costs.now stack.old }
    ensures { out.new ≡ line_of costs.now }
{
    let mut x = 0;
    // A while: a step is as long as the run that it answers.
    while x < costs.len() {
        if costs[x] == 0 {
            out[x] = x as u32;
            x += 1;
        } else if lone(costs, x) {
            out[x] = (x - 1) as u32;
            x += 1;
        } else {
            let e = run_end(costs, x);
            let a = x.saturating_sub(1);
            run(&mut out[a..e], &costs[a..e], stack, a);
            x = e;
        }
    }
}
