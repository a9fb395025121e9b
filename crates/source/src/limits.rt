// The limits of what a book or a sheet holds.
ghost use Rattle.std.specs.Prelude.{◌≡◌, leb};
ghost use Rattle.outline.specs.Numbers.{most_companies, least_stations, most_stations, most_links, most_rules};
ghost use Rattle.outline.specs.Tests.{both, within};

const MOST_COMPANIES: u16 = 16;

const LEAST_STATIONS: u16 = 2;

const MOST_STATIONS: u16 = 40;

const MOST_LINKS: u16 = 128;

const MOST_RULES: u16 = 32;

// Whether there may be so many companies, links and rules.
#[tactic(auto, unfolding(outline::specs::Tests::both, outline::specs::Tests::within))]
pub fn good_counts(companies: u16, links: u16, rules: u16) -> bool
    ensures { result ≡ both (within 1 companies most_companies) (both (leb links most_links) (leb rules most_rules)) }
{
    (1..=MOST_COMPANIES).contains(&companies) && links <= MOST_LINKS && rules <= MOST_RULES
}

// Whether a company may have so many stations.
#[tactic(auto, unfolding(outline::specs::Tests::both, outline::specs::Tests::within))]
pub fn good_stations(n: u16) -> bool
    ensures { result ≡ within least_stations n most_stations }
{
    (LEAST_STATIONS..=MOST_STATIONS).contains(&n)
}
