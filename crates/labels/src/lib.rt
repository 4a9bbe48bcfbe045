// Labels of the parts of a mask that are joined by steps up, down, left or right over on-pixels: each pixel gets a provisional
// label from its neighbours to the left and above, and labels that meet are joined in trees, whose roots are numbered at the end.
#![tactic(auto)]

ghost use Rattle.std.specs.Prelude.{◌≡◌, ◌+◌, ◌*◌, ◌<◌, ◌≤◌, ◌==◌, if◌then◌else◌, max, length};
ghost use Rattle.std.specs.Prelude.{slice_index, slice_set, EachIndex};
ghost use Rattle.labels.specs.Labels.{parts, labels_plane};
ghost use Rattle.labels.specs.steps.Trees.{Given, Trees, Found, Joinable, Linked, Placeable, Placed, up_at};
ghost use Rattle.plane.specs.steps.Buffer.{SameBuffer};
ghost use Rattle.labels.specs.steps.Trees.{Scanned, RowsDone, Numberable, Numbered};

use plane::size::Mask;

// Provisional labels: the parent of each, and how many there are. A label that is its own parent is the root of its tree. The trees
// are indices into a lent buffer: no memory is reserved, so no label has nodes of its own. That they are trees is a clause at each
// method, since no ghost field may speak of what a `&mut` holds; and so is SameBuffer, which speaks of before and after.
#[derive(Drop)]
struct LabelTrees<'a> {
    parents: &'a mut [u32],
    count: u32,
}

impl LabelTrees<'_> {
    // The root of label l; on the way each label gets its parent's parent as its parent.
    fn find(&mut self, l: u32) -> u32
        requires trees { Trees self.old.parents.now self.old.count }
        requires l_in { l ≤ self.old.count }
        ensures found { Found self.old.parents.now self.new.parents.now self.old.count l result }
        ensures same_count { self.new.count ≡ self.old.count }
        ensures same_buffer { SameBuffer self.old.parents self.new.parents }
    {
        // A while: it walks up a tree, and counts nothing.
        let parents = &mut *self.parents;
        let mut a = l;
        let mut b = parents[a as usize];
        while b != a {
            let c = parents[b as usize];
            parents[a as usize] = c;
            a = c;
            b = parents[a as usize];
        }
        a
    }

    // The trees of labels a and b become one: the greater root gets the lesser as its parent; the lesser root.
    fn join(&mut self, a: u32, b: u32) -> u32
        requires { Joinable self.old.parents.now self.old.count a b }
        ensures linked { Linked self.old.parents.now self.new.parents.now self.old.count a b result }
        ensures same_count { self.new.count ≡ self.old.count }
        ensures same_buffer { SameBuffer self.old.parents self.new.parents }
    {
        let x = self.find(a);
        let y = self.find(b);
        let lesser = x.min(y);
        let greater = x.max(y);
        self.parents[greater as usize] = lesser;
        lesser
    }

    // The label of a pixel with byte v, from those of the pixels to the left, above, and above to the left of it.
    // Where the pixel above to the left is on, its two neighbours, which are the other two, have one root already.
    fn place(&mut self, v: u8, left: u32, up: u32, diag: u32) -> u32
        requires { Placeable self.old.parents.now self.old.count left up }
        ensures placed { Placed v left up diag self.old.count self.old.parents.now self.new.parents.now result }
        ensures count_after { self.new.count ≡ max self.old.count result }
        ensures same_buffer { SameBuffer self.old.parents self.new.parents }
    {
        if v == 0 {
            return 0;
        }
        match (left, up) {
            (0, 0) => {
                self.count += 1;
                let l = self.count;
                self.parents[l as usize] = l;
                l
            }
            (0, _) => up,
            (_, 0) => left,
            _ if diag != 0 => left,
            _ => self.join(left, up),
        }
    }
}

// The label of the pixel above pixel i; 0 for none, as the plane of labels has it: an Option would be made 0 again where the label is
// stored.
#[tactic(auto, unfolding(crate::specs::steps::Trees::up_at))]
fn upper(labels: &[u32], w: usize, i: usize) -> u32
    requires { i < length labels.now }
    ensures { result ≡ up_at labels.now w i }
{
    if i < w { 0 } else { labels[i - w] }
}

// The pixels of row y get provisional labels, of which the rows before it have some already. The loop goes by index: after a `zip` of
// `iter_mut` no proof knows what was written, and a pixel needs the label above it.
fn scan_row(mask: Mask, y: usize, trees: &mut LabelTrees, labels: &mut [u32])
    requires { RowsDone mask labels.old trees.old.parents.now y trees.old.count }
    ensures scanned { let m = mask.entry in
        Scanned m.pixels.now labels.new trees.new.parents.now m.size.h m.size.w (y * m.size.w + m.size.w) trees.new.count }
    ensures same_buffer { SameBuffer trees.old.parents trees.new.parents }
{
    let w = mask.size.w;
    let start = y * w;
    let mut left = 0;
    let mut diag = 0;
    for x in 0..w {
        let i = start + x;
        let up = upper(labels, w, i);
        let l = trees.place(mask.pixels[i], left, up, diag);
        labels[i] = l;
        left = l;
        diag = up;
    }
}

// Every pixel gets a provisional label; how many labels there are.
fn scan(mask: Mask, parents: &mut [u32], labels: &mut [u32]) -> u32
    requires { Given parents.old labels.old (mask.size.h * mask.size.w) }
    ensures { let m = mask.entry in
        Scanned m.pixels.now labels.new parents.new m.size.h m.size.w (m.size.h * m.size.w) result }
{
    parents[0] = 0;
    let mut trees = LabelTrees { parents, count: 0 };
    for y in 0..mask.size.h {
        scan_row(mask, y, &mut trees, labels);
    }
    trees.count
}

// Label k gets the next number, n + 1, if it is a root, else the number that its parent has; how many numbers there are then.
fn number(parents: &mut [u32], k: usize, n: u32) -> u32
    requires { Numberable parents.old k n }
    ensures value { result ≡ (if slice_index parents.old k == k then n + 1 else n) }
    ensures parents_after { let parent = slice_index parents.old k in
        parents.new ≡ slice_set parents.old k (if parent == k then n + 1 else slice_index parents.old parent) }
{
    let p = parents[k] as usize;
    if p == k {
        parents[k] = n + 1;
        n + 1
    } else {
        parents[k] = parents[p];
        n
    }
}

// The labels from 1 to m get the numbers of their roots, in the roots' order; how many roots there are. By index: a label's number stands
// at its parent's place in the same buffer.
fn flatten(parents: &mut [u32], m: u32) -> u32
    requires { Trees parents.old m }
    ensures { Numbered parents.old parents.new m (m + 1) result }
{
    let mut n = 0u32;
    for k in 1..m as usize + 1 {
        n = number(parents, k, n);
    }
    n
}

// Every label becomes its number.
fn rename(numbers: &[u32], labels: &mut [u32])
    requires { EachIndex labels.old (λ k. slice_index labels.old k < length numbers.now) }
    ensures { EachIndex labels.new (λ k. slice_index labels.new k
        ≡ slice_index numbers.now (slice_index labels.old k)) }
{
    for l in labels.iter_mut() {
        *l = numbers[*l as usize];
    }
}

// Each pixel's label, 0 where the mask is off, and the number of labels (label4). Where all labels are roots, they stay.
// Work space: `parents`, a number more than there are pixels.
pub fn label(mask: Mask, parents: &mut [u32], labels: &mut [u32]) -> u32
    requires { Given parents.old labels.old (mask.size.h * mask.size.w) }
    ensures value { let m = mask.entry in result ≡ parts m.pixels.now m.size.h m.size.w }
    ensures labels_after { let m = mask.entry in labels.new ≡ labels_plane m.pixels.now m.size.h m.size.w }
{
    let m = scan(mask, parents, labels);
    let n = flatten(parents, m);
    if n == m {
        return n;
    }
    rename(parents, labels);
    n
}
