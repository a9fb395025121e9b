// The C face of the public operations: include/fares.h says what each returns. A slice is a pointer and a length there.
#![tactic(auto)]

ghost use Rattle.std.specs.Prelude.{◌≡◌, length};
ghost use Rattle.outline.specs.Judging.{book_check, company_body, company_offset};
ghost use Rattle.outline.specs.Price.{price_of};
ghost use Rattle.outline.specs.Lending.{read_answer, read_leaves, write_answer, write_leaves};
ghost use Rattle.telling.specs.Word.{judged_word, written_word, part_word};
ghost use Rattle.telling.specs.Answers.{Tells, TellsCheapest, question};

use outline::{Question, Refusal, Station};
use telling::{answers, words};

// Whether a book is good.
pub fn fares_check(book: &[u8]) -> u64
    ensures { result ≡ judged_word (book_check book.now) }
{
    match book::judge(book) {
        Ok(()) => 0,
        Err(x) => words::refused(x),
    }
}

// Where a company's body stands in the book.
#[tactic(auto, unfolding(outline::specs::Judging::company_body, outline::specs::Judging::company_offset, outline::specs::Judging::where_good, outline::specs::Tests::choose))]
pub fn fares_company(book: &[u8], company: u8) -> u64
    ensures { result ≡ part_word (company_offset book.now company) (length (company_body book.now company)) }
{
    if book::judge(book).is_err() || layout::companies(book) <= company {
        return 0;
    }
    let c = usize::from(company);
    words::part(layout::offset(book, c), layout::extent(book, c))
}

// A book read into a lent sheet.
pub fn fares_read(book: &[u8], sheet: &mut [u16]) -> u64
    ensures value { result ≡ written_word (read_answer book.now sheet.old) }
    ensures sheet_after { sheet.new ≡ read_leaves book.now sheet.old }
{
    words::written(sheet::read(book, sheet))
}

// A sheet's book written into a lent buffer.
pub fn fares_write(sheet: &[u16], book: &mut [u8]) -> u64
    ensures value { result ≡ written_word (write_answer sheet.now book.old) }
    ensures book_after { book.new ≡ write_leaves sheet.now book.old }
{
    words::written(sheet::write(sheet, book))
}

// The price of a given route.
pub fn fares_price(book: &[u8], route: &[u8], answer: &mut [u16]) -> u64
    ensures { Tells (price_of book.now route.now) answer.old result answer.new }
{
    words::written(answers::put(price::price(book, route), answer))
}

// The cheapest route between two stations.
pub fn fares_cheapest(
    book: &[u8],
    from_company: u8,
    from_station: u8,
    to_company: u8,
    to_station: u8,
    limit: u8,
    answer: &mut [u16],
) -> u64
    ensures { TellsCheapest book.now (question from_company from_station to_company to_station limit) answer.old result answer.new }
{
    let question = Question {
        from: Station {
            company: from_company,
            number: from_station,
        },
        to: Station {
            company: to_company,
            number: to_station,
        },
        limit,
    };
    words::written(answers::put(search::cheapest(book, question), answer))
}
