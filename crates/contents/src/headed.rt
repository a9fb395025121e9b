// A book whose header is good and whose contents are all there: whether each body lies where it should and is as long as it should be.
ghost use Rattle.std.specs.Prelude.{◌≡◌, ◌≤◌, ◌<◌};
ghost use Rattle.outline.specs.Refusals.{first_below};
ghost use Rattle.outline.specs.Book.{company_count, rules_entry};
ghost use Rattle.outline.specs.Valid.{Header};
ghost use Rattle.outline.specs.Judging.{company_check, list_check, end_check, contents_check};

use outline::Refusal;
use source::limits;

#[derive(Clone, Copy)]
pub struct Headed<'a> {
    pub bytes: &'a [u8],
    pub ghost header: { Header bytes.now },
}

impl<'a> Headed<'a> {
    // What is wrong with the entry and the body of company c.
    #[tactic(auto, unfolding(outline::specs::Judging::company_check, outline::specs::Refusals::demand), using(laws::proofs::Reading::stations_at))]
    fn judge_company(self, c: usize) -> Result<(), Refusal>
        requires { c < company_count self.bytes.now }
        ensures { result ≡ company_check self.entry.bytes.now c }
    {
        let from = layout::offset(self.bytes, c);
        let long = layout::extent(self.bytes, c);
        if from != layout::end_before(self.bytes, c) || long < 1 || self.bytes.len() < from + long {
            return Err(Refusal::BadContents(c));
        }
        let n = self.bytes[from];
        if !limits::good_stations(u16::from(n)) {
            return Err(Refusal::BadStations(c));
        }
        if long != layout::company_length(n) {
            return Err(Refusal::BadContents(c));
        }
        Ok(())
    }

    #[tactic(auto, unfolding(outline::specs::Refusals::first_below), using(laws::proofs::Firsts::first_more, laws::proofs::Firsts::first_ends))]
    fn judge_companies(self) -> Result<(), Refusal>
        ensures { result ≡ first_below (company_check self.entry.bytes.now) (company_count self.entry.bytes.now) }
    {
        for c in 0..usize::from(layout::companies(self.bytes)) {
            self.judge_company(c)?;
        }
        Ok(())
    }

    // What is wrong with entry e and its body, of so many bytes: that of the links or of the rules.
    #[tactic(auto, unfolding(outline::specs::Judging::list_check, outline::specs::Refusals::demand))]
    fn judge_list(self, e: usize, bytes: usize) -> Result<(), Refusal>
        requires { e ≤ rules_entry self.bytes.now }
        ensures { result ≡ list_check self.entry.bytes.now e bytes }
    {
        let from = layout::offset(self.bytes, e);
        let long = layout::extent(self.bytes, e);
        if from != layout::end_before(self.bytes, e)
            || self.bytes.len() < from + long
            || long != bytes
        {
            return Err(Refusal::BadContents(e));
        }
        Ok(())
    }

    // Bytes left over are the last entry's.
    #[tactic(auto, unfolding(outline::specs::Judging::end_check, outline::specs::Refusals::demand))]
    fn judge_end(self) -> Result<(), Refusal>
        ensures { result ≡ end_check self.entry.bytes.now }
    {
        let e = usize::from(layout::companies(self.bytes)) + 1;
        if layout::offset(self.bytes, e) + layout::extent(self.bytes, e) != self.bytes.len() {
            return Err(Refusal::BadContents(e));
        }
        Ok(())
    }

    // What is wrong with the contents and the bodies' sizes.
    pub fn judge(self) -> Result<(), Refusal>
        ensures { result ≡ contents_check self.entry.bytes.now }
    {
        let n = usize::from(layout::companies(self.bytes));
        self.judge_companies()?;
        self.judge_list(n, layout::links_length(layout::links(self.bytes)))?;
        self.judge_list(n + 1, layout::rules_length(layout::rules(self.bytes)))?;
        self.judge_end()
    }
}
