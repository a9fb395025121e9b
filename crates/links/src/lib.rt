// The links of a book or a sheet: the first that is bad or repeated.
#![tactic(auto)]

ghost use Rattle.std.specs.Prelude.{◌≡◌, ◌<◌, length};
ghost use Rattle.outline.specs.Fares.{link_at};
ghost use Rattle.outline.specs.Network.{network_of};
ghost use Rattle.outline.specs.Refusals.{first_below};
ghost use Rattle.outline.specs.Sheet.{link_in};
ghost use Rattle.outline.specs.Judging.{good_link, repeated, link_check};

use outline::Refusal;
use source::{Company, Source};

// Whether the first company is less than the second and both stations exist.
#[tactic(auto, unfolding(outline::specs::Judging::good_link, outline::specs::Tests::both, outline::specs::Network::network_of, outline::specs::Sheet::link_in))]
fn good_link<S: Source>(source: S, link: [u16; 4]) -> bool
    ensures { result ≡ good_link (network_of (S.fares source)) (link_in link 0) }
{
    let one = link[0];
    let other = link[2];
    one < other
        && other < source.companies()
        && link[1] < source.company(one).stations()
        && link[3] < source.company(other).stations()
}

// Whether a link before link k is the same.
fn is_repeated<S: Source>(source: S, k: u16) -> bool
    requires { k < length (S.fares source).links }
    ensures { result ≡ repeated (network_of (S.fares source)) k }
{
    for j in 0..k {
        if source.same_links(j, k) {
            return true;
        }
    }
    false
}

fn judge_link<S: Source>(source: S, k: u16) -> Result<(), Refusal>
    requires { k < length (S.fares source).links }
    ensures { result ≡ link_check (network_of (S.fares source)) k }
{
    if !good_link(source, source.link(k)) || is_repeated(source, k) {
        return Err(Refusal::BadLink(usize::from(k)));
    }
    Ok(())
}

#[tactic(auto, unfolding(outline::specs::Refusals::first_below), using(laws::proofs::Firsts::first_more, laws::proofs::Firsts::first_ends))]
pub fn judge<S: Source>(source: S) -> Result<(), Refusal>
    ensures { result ≡ first_below (link_check (network_of (S.fares source))) (network_of (S.fares source)).links }
{
    for k in 0..source.links() {
        judge_link(source, k)?;
    }
    Ok(())
}
