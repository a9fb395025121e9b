// The bytes of a rule in a book.
#![tactic(auto)]

ghost use Rattle.std.specs.Prelude.{◌≡◌, ◌∷◌, ◌++◌, ◌+◌, ◌*◌, ◌≤◌, length};
ghost use Rattle.outline.specs.Tests.{part};
ghost use Rattle.outline.specs.Book.{rule_length, rule_of};

use crate::RULE;
use crate::bytes::word;

// A rule's bytes: the rules' body, and which of its rules they are.
#[derive(Clone, Copy)]
pub struct RuleBytes<'a> {
    pub body: &'a [u8],
    pub k: u8,
    pub ghost inside: { rule_length * k + rule_length ≤ length body.now },
}

impl<'a> RuleBytes<'a> {
    // Where the rule begins in the body.
    fn start(self) -> usize
        ensures { result ≡ rule_length * self.entry.k }
    {
        RULE * usize::from(self.k)
    }

    // So many bytes of the rule, from its byte `from` on.
    fn part(self, from: usize, bytes: usize) -> &'a [u8]
        requires { from + bytes ≤ rule_length }
        ensures { result.now ≡ part self.entry.body.now (rule_length * self.entry.k + from) bytes }
    {
        let at = self.start() + from;
        let end = at + bytes;
        &self.body[at..end]
    }

    #[tactic(auto, unfolding(outline::specs::Book::rule_of))]
    pub fn rides(self) -> u8
        ensures { result ≡ (rule_of self.entry.body.now self.entry.k).rides }
    {
        self.body[self.start()]
    }

    #[tactic(auto, unfolding(outline::specs::Book::rule_of))]
    pub fn companies(self) -> &'a [u8]
        ensures { result.now ≡ (rule_of self.entry.body.now self.entry.k).companies }
    {
        self.part(1, 4)
    }

    #[tactic(auto, unfolding(outline::specs::Book::rule_of))]
    pub fn amount(self) -> u16
        ensures { result ≡ (rule_of self.entry.body.now self.entry.k).amount }
    {
        word(self.body, self.start() + 5)
    }

    #[tactic(auto, unfolding(outline::specs::Book::rule_of))]
    pub fn boarding(self) -> &'a [u8]
        ensures { result.now ≡ (rule_of self.entry.body.now self.entry.k).boarding }
    {
        self.part(7, 5)
    }

    #[tactic(auto, unfolding(outline::specs::Book::rule_of))]
    pub fn alighting(self) -> &'a [u8]
        ensures { result.now ≡ (rule_of self.entry.body.now self.entry.k).alighting }
    {
        self.part(12, 5)
    }

    #[tactic(auto, unfolding(outline::specs::Book::rule_of))]
    pub fn permitted(self) -> &'a [u8]
        ensures { result.now ≡ (rule_of self.entry.body.now self.entry.k).permitted }
    {
        self.part(17, 16)
    }

    // The bytes of the rule before its amount: m and the four companies.
    pub fn first(self) -> &'a [u8]
        ensures { result.now ≡ (rule_of self.entry.body.now self.entry.k).rides ∷ (rule_of self.entry.body.now self.entry.k).companies }
    {
        self.part(0, 5)
    }

    // The bytes of the rule after its amount: the three maps.
    #[tactic(auto, using(laws::proofs::Reading::rule_maps))]
    pub fn maps(self) -> &'a [u8]
        ensures { result.now ≡ (rule_of self.entry.body.now self.entry.k).boarding ++ ((rule_of self.entry.body.now self.entry.k).alighting ++ (rule_of self.entry.body.now self.entry.k).permitted) }
    {
        self.part(7, 26)
    }
}
