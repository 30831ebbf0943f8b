// The rules of names. These functions are for the crates that read and write plans: each relies on what the checks before it
// gave, and says so in its `requires`.
ghost use Rattle.std.specs.Prelude.{◌≡◌, ◌+◌, ◌≤◌, ◌<◌, length};
ghost use Rattle.folds.specs.Below.{sum_below};
ghost use Rattle.sizes.specs.Sizes.{most_resources};
ghost use Rattle.plan_rules.specs.Rules.{length_of, lengths_ok, bytes_ok, same_bytes, differ, names_differ, name_new, names_ok};
ghost use Rattle.plan_rules.specs.Inner.{digest_of, digests_of, number_new, numbers_differ};
ghost use Rattle.plan_rules.specs.Inner.{QuadRead, LengthsAdded, NameLies, TwoNames, DigestLies, NamesFit};

// The range of a name's bytes.
const FIRST_BYTE: u8 = 33;

const LAST_BYTE: u8 = 126;

// The sum of the first r name lengths.
#[tactic(auto, unfolding(folds::specs::Below::sum_below))]
fn total_length(lengths: [u8; sizes::RESOURCES], r: usize) -> usize
    requires { r ≤ most_resources }
    ensures { LengthsAdded r lengths result }
{
    let mut sum = 0;
    for i in 0..r {
        sum += usize::from(lengths[i]);
    }
    sum
}

// Whether each of the first r name lengths is in its range.
#[tactic(auto, unfolding(folds::specs::Below::all_below, crate::specs::Rules::lengths_ok))]
fn lengths_ok(lengths: [u8; sizes::RESOURCES], r: usize) -> bool
    requires { r ≤ most_resources }
    ensures { result ≡ lengths_ok r lengths }
{
    let mut ok = true;
    for i in 0..r {
        let len = lengths[i];
        ok &= (1 <= len) & (len <= sizes::NAME as u8);
    }
    ok
}

// Whether each name byte is in its range.
#[tactic(auto, unfolding(folds::specs::Below::all_below, crate::specs::Rules::bytes_ok))]
fn bytes_ok(names: &[u8]) -> bool
    ensures { result ≡ bytes_ok names.now }
{
    let mut ok = true;
    for b in names {
        ok &= (FIRST_BYTE <= *b) & (*b <= LAST_BYTE);
    }
    ok
}

// Whether the len bytes at a and those at b are the same.
#[tactic(auto, unfolding(folds::specs::Below::all_below, crate::specs::Rules::same_bytes))]
fn same_bytes(names: &[u8], a: usize, b: usize, len: usize) -> bool
    requires { (a + len ≤ length names.now) × (b + len ≤ length names.now) }
    ensures { result ≡ same_bytes names.now a b len }
{
    names[a..a + len] == names[b..b + len]
}

// Whether the name of resource i, which begins at `at`, differs from that of resource j, which begins at `other`.
#[tactic(auto, unfolding(crate::specs::Rules::differ))]
fn differs(
    lengths: [u8; sizes::RESOURCES],
    names: &[u8],
    i: usize,
    j: usize,
    at: usize,
    other: usize,
) -> bool
    requires { TwoNames lengths names.now i j at other }
    ensures { result ≡ differ lengths names.now i j at other }
{
    let len = lengths[i];
    if len != lengths[j] {
        return true;
    }
    !same_bytes(names, at, other, usize::from(len))
}

// Whether the name of resource i, which begins at `at`, differs from those of all earlier ones.
#[tactic(auto, using(folds::proofs::Figures::sum_at), unfolding(folds::specs::Below::all_below, folds::specs::Below::sum_below, crate::specs::Rules::name_new))]
fn name_is_new(lengths: [u8; sizes::RESOURCES], names: &[u8], i: usize, at: usize) -> bool
    requires { NameLies lengths names.now i at }
    ensures { result ≡ name_new lengths names.now i }
{
    let mut ok = true;
    let mut other = 0;
    for j in 0..i {
        ok &= differs(lengths, names, i, j, at, other);
        other += usize::from(lengths[j]);
    }
    ok
}

// Four bytes as a number, low byte first.
#[tactic(auto, unfolding(folds::specs::Bytes::number))]
fn quad(s: &[u8], at: usize) -> u64
    requires { at + 3 < length s.now }
    ensures { QuadRead s.now at result }
{
    u64::from(u32::from_le_bytes([s[at], s[at + 1], s[at + 2], s[at + 3]]))
}

// A number that equal names have in common, made of all their bytes: of up to 3 bytes their sum, of 4 to 12 bytes the sum of the
// first four, the middle four and the last four, each times its own factor.
#[tactic(auto, unfolding(crate::specs::Inner::digest_of))]
fn digest_of(names: &[u8], at: usize, len: usize) -> u64
    requires { DigestLies names.now at len }
    ensures { result ≡ digest_of names.now at len }
{
    if len < 4 {
        let first = u64::from(names[at]);
        let middle = u64::from(names[at + len / 2]);
        let last = u64::from(names[at + (len - 1)]);
        return first + 256 * middle + 65536 * last;
    }
    quad(names, at) + 3 * quad(names, at + (len - 4) / 2) + 5 * quad(names, at + (len - 4))
}

// Those numbers of all names.
#[tactic(auto, using(folds::proofs::Figures::sum_at, crate::proofs::Laws::length_facts), unfolding(folds::specs::Bytes::placed_below, folds::specs::Below::sum_below, crate::specs::Inner::digests_of))]
fn digests(lengths: [u8; sizes::RESOURCES], r: usize, names: &[u8]) -> [u64; sizes::RESOURCES]
    requires { NamesFit r lengths names.now }
    ensures { result ≡ digests_of r lengths names.now }
{
    let mut found = [0u64; sizes::RESOURCES];
    let mut at = 0;
    for i in 0..r {
        let len = usize::from(lengths[i]);
        found[i] = digest_of(names, at, len);
        at += len;
    }
    found
}

// Whether number i differs from all before it.
#[tactic(auto, unfolding(folds::specs::Below::all_below, crate::specs::Inner::number_new))]
fn digest_is_new(found: [u64; sizes::RESOURCES], i: usize) -> bool
    requires { i < most_resources }
    ensures { result ≡ number_new found i }
{
    let own = found[i];
    let mut ok = true;
    for j in 0..i {
        ok &= own != found[j];
    }
    ok
}

// Whether the first r numbers differ.
#[tactic(auto, unfolding(folds::specs::Below::all_below, crate::specs::Inner::numbers_differ))]
fn digests_differ(found: [u64; sizes::RESOURCES], r: usize) -> bool
    requires { r ≤ most_resources }
    ensures { result ≡ numbers_differ r found }
{
    let mut ok = true;
    for i in 0..r {
        ok &= digest_is_new(found, i);
    }
    ok
}

// Whether all names differ, compared byte by byte.
#[tactic(auto, using(folds::proofs::Figures::sum_at), unfolding(folds::specs::Below::all_below, folds::specs::Below::sum_below, crate::specs::Rules::names_differ))]
fn bytes_differ(lengths: [u8; sizes::RESOURCES], r: usize, names: &[u8]) -> bool
    requires { (r ≤ most_resources) × (sum_below r (length_of lengths) ≡ length names.now) }
    ensures { result ≡ names_differ r lengths names.now }
{
    let mut ok = true;
    let mut at = 0;
    for i in 0..r {
        ok &= name_is_new(lengths, names, i, at);
        at += usize::from(lengths[i]);
    }
    ok
}

// Whether all names differ. Where their numbers differ, so do they; only else are they compared.
#[tactic(auto, using(crate::proofs::Laws::digests_differ))]
fn names_differ(lengths: [u8; sizes::RESOURCES], r: usize, names: &[u8]) -> bool
    requires { NamesFit r lengths names.now }
    ensures { result ≡ names_differ r lengths names.now }
{
    let found = digests(lengths, r, names);
    if digests_differ(found, r) {
        return true;
    }
    bytes_differ(lengths, r, names)
}

// 7: whether lengths and names keep their rules: lengths in range that add up to the bytes, bytes in range, names that differ.
#[tactic(auto, using(std::proofs::lemmas::Bool::Decides::nat_tests), unfolding(crate::specs::Rules::names_ok))]
pub fn names_ok(lengths: [u8; sizes::RESOURCES], r: usize, names: &[u8]) -> bool
    requires { r ≤ most_resources }
    ensures { result ≡ names_ok r lengths names.now }
{
    if total_length(lengths, r) != names.len() {
        return false;
    }
    if !lengths_ok(lengths, r) {
        return false;
    }
    bytes_ok(names) & names_differ(lengths, r, names)
}
