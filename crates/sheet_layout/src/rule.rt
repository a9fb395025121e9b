// The numbers of a rule in a sheet.
#![tactic(auto)]

ghost use Rattle.std.specs.Prelude.{◌≡◌, ◌∷◌, ◌++◌, ◌+◌, ◌≤◌, length};
ghost use Rattle.outline.specs.Sheet.{rule_numbers, rule_in};

use outline::Rule;

// A rule's numbers: the sheet, and where in it they begin.
#[derive(Clone, Copy)]
pub struct RuleNumbers<'a> {
    pub sheet: &'a [u16],
    pub at: usize,
    pub ghost inside: { at + rule_numbers ≤ length sheet.now },
}

// N numbers, by value.
fn copied<const N: usize>(numbers: &[u16]) -> [u16; N]
    requires { length numbers.now ≡ N }
    ensures { result ≡ numbers.now }
{
    let mut copy = [0; N];
    copy.copy_from_slice(numbers);
    copy
}

impl<'a> RuleNumbers<'a> {
    #[tactic(auto, unfolding(outline::specs::Sheet::rule_in))]
    pub fn rides(self) -> u16
        ensures { result ≡ (rule_in self.entry.sheet.now self.entry.at).rides }
    {
        self.sheet[self.at]
    }

    #[tactic(auto, unfolding(outline::specs::Sheet::rule_in))]
    pub fn companies(self) -> &'a [u16]
        ensures { result.now ≡ (rule_in self.entry.sheet.now self.entry.at).companies }
    {
        crate::numbers(self.sheet, self.at + 1, 4)
    }

    #[tactic(auto, unfolding(outline::specs::Sheet::rule_in))]
    pub fn amount(self) -> u16
        ensures { result ≡ (rule_in self.entry.sheet.now self.entry.at).amount }
    {
        self.sheet[self.at + 5]
    }

    #[tactic(auto, unfolding(outline::specs::Sheet::rule_in))]
    pub fn boarding(self) -> &'a [u16]
        ensures { result.now ≡ (rule_in self.entry.sheet.now self.entry.at).boarding }
    {
        crate::numbers(self.sheet, self.at + 6, 5)
    }

    #[tactic(auto, unfolding(outline::specs::Sheet::rule_in))]
    pub fn alighting(self) -> &'a [u16]
        ensures { result.now ≡ (rule_in self.entry.sheet.now self.entry.at).alighting }
    {
        crate::numbers(self.sheet, self.at + 11, 5)
    }

    #[tactic(auto, unfolding(outline::specs::Sheet::rule_in))]
    pub fn permitted(self) -> &'a [u16]
        ensures { result.now ≡ (rule_in self.entry.sheet.now self.entry.at).permitted }
    {
        crate::numbers(self.sheet, self.at + 16, 16)
    }

    // The numbers of a rule before its amount: m and the four companies.
    #[tactic(auto, using(laws::proofs::Sheet::rule_first_in))]
    pub fn first(self) -> &'a [u16]
        ensures { result.now ≡ (rule_in self.entry.sheet.now self.entry.at).rides ∷ (rule_in self.entry.sheet.now self.entry.at).companies }
    {
        crate::numbers(self.sheet, self.at, 5)
    }

    // The numbers of a rule after its amount: the three maps.
    #[tactic(auto, using(laws::proofs::Sheet::rule_maps_in))]
    pub fn maps(self) -> &'a [u16]
        ensures { result.now ≡ (rule_in self.entry.sheet.now self.entry.at).boarding ++ ((rule_in self.entry.sheet.now self.entry.at).alighting ++ (rule_in self.entry.sheet.now self.entry.at).permitted) }
    {
        crate::numbers(self.sheet, self.at + 6, 26)
    }

    // What the numbers say.
    pub fn rule(self) -> Rule
        ensures { result ≡ rule_in self.entry.sheet.now self.entry.at }
    {
        Rule {
            rides: self.rides(),
            companies: copied(self.companies()),
            amount: self.amount(),
            boarding: copied(self.boarding()),
            alighting: copied(self.alighting()),
            permitted: copied(self.permitted()),
        }
    }
}
