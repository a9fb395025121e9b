// A sheet whose parts are all there, as it is judged.
ghost use Rattle.std.specs.Prelude.{◌≡◌, ◌+◌, get_or};
ghost use Rattle.outline.specs.Sheet.{companies_in, links_in, company_start, link_start, fare_index, table_in, fares_in};
ghost use Rattle.outline.specs.SheetValid.{SheetLaidOut};
ghost use Rattle.outline.specs.SheetJudging.{entry_index};

use crate::rule::RuleNumbers;
use crate::table::Table;
use outline::Rule;
use source::Source;

#[derive(Clone, Copy)]
pub struct Sheet<'a> {
    pub numbers: &'a [u16],
    // Where the links begin, and where the rules do.
    pub first_link: usize,
    pub first_rule: usize,
    pub ghost laid_out: { SheetLaidOut numbers.now },
    pub ghost links_begin: { first_link ≡ company_start numbers.now (companies_in numbers.now) },
    pub ghost rules_begin: { first_rule ≡ link_start numbers.now (links_in numbers.now) },
}

impl<'a> Sheet<'a> {
    pub fn new(numbers: &'a [u16]) -> Sheet<'a>
        requires { SheetLaidOut numbers.now }
        ensures { result.numbers.now ≡ numbers.now }
    {
        let first_link = crate::company_start(numbers, crate::companies(numbers));
        Sheet {
            numbers,
            first_link,
            first_rule: first_link + crate::links_numbers(crate::links(numbers)),
        }
    }
}

impl<'a> Source for Sheet<'a> {
    type Company = Table<'a>;

    ghost fares = { λ sheet. fares_in sheet.numbers.now };

    ghost place = { λ sheet. entry_index sheet.numbers.now };

    fn companies(self) -> u16 {
        crate::companies(self.numbers)
    }

    fn company(self, c: u16) -> Table<'a> {
        Table {
            sheet: self.numbers,
            at: crate::company_start(self.numbers, c),
        }
    }

    fn links(self) -> u16 {
        crate::links(self.numbers)
    }

    fn link(self, k: u16) -> [u16; 4] {
        let at = self.first_link + crate::links_numbers(k);
        let numbers = self.numbers;
        [
            numbers[at],
            numbers[at + 1],
            numbers[at + 2],
            numbers[at + 3],
        ]
    }

    fn same_links(self, j: u16, k: u16) -> bool {
        let x = self.link(j);
        let y = self.link(k);
        x == y
    }

    fn rules(self) -> u16 {
        crate::rules(self.numbers)
    }

    fn rule(self, k: u16) -> Rule {
        RuleNumbers {
            sheet: self.numbers,
            at: self.first_rule + crate::rules_numbers(k),
        }
        .rule()
    }
}
