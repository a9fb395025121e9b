// A fare book judged, and a company's body handed back.
#![tactic(auto)]

pub mod good;
pub mod refusal;

ghost use Rattle.std.specs.Prelude.{◌≡◌, ◌+◌};
ghost use Rattle.outline.specs.Judging.{book_check, company_body, company_offset};

use contents::headed::Headed;
use lookup::book::Book;
use outline::Refusal;

// Whether a book is good, and if not, what is refused.
pub fn judge(bytes: &[u8]) -> Result<(), Refusal>
    ensures { result ≡ book_check bytes.now }
{
    contents::judge_header(bytes)?;
    Headed { bytes }.judge()?;
    let book = Book { bytes };
    tables::judge(book)?;
    links::judge(book)?;
    rules::judge(book)
}

// A company's body, a part of the book itself; empty where the book is refused or has no such company.
#[tactic(auto, unfolding(outline::specs::Judging::company_body, outline::specs::Judging::company_offset, outline::specs::Judging::where_good, outline::specs::Tests::choose))]
pub fn company_body(book: &[u8], company: u8) -> &[u8]
    ensures result_value { result.now ≡ company_body book.now company }
    ensures ref_ptr_value { (result.ref_ptr.0 ≡ book.entry.ref_ptr.0) × (result.ref_ptr.1 ≡ book.entry.ref_ptr.1 + company_offset book.now company) }
{
    if judge(book).is_err() || layout::companies(book) <= company {
        return &book[0..0];
    }
    layout::body(book, usize::from(company))
}
