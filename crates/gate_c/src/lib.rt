// The exports of the C face: each calls the function of its name in `gate`, and states its clauses again.
#![tactic(auto)]

ghost use Rattle.std.specs.Prelude.{◌≡◌, length};
ghost use Rattle.outline.specs.Judging.{book_check, company_body, company_offset};
ghost use Rattle.outline.specs.Price.{price_of};
ghost use Rattle.outline.specs.Lending.{read_answer, read_leaves, write_answer, write_leaves};
ghost use Rattle.telling.specs.Word.{judged_word, written_word, part_word};
ghost use Rattle.telling.specs.Answers.{Tells, TellsCheapest, question};

// Whether a book is good.
#[unsafe(no_mangle)]
pub extern "C" fn fares_check(book: &[u8]) -> u64
    ensures { result ≡ judged_word (book_check book.now) }
{
    gate::fares_check(book)
}

// Where a company's body stands in the book.
#[unsafe(no_mangle)]
pub extern "C" fn fares_company(book: &[u8], company: u8) -> u64
    ensures { result ≡ part_word (company_offset book.now company) (length (company_body book.now company)) }
{
    gate::fares_company(book, company)
}

// A book read into a lent sheet.
#[unsafe(no_mangle)]
pub extern "C" fn fares_read(book: &[u8], sheet: &mut [u16]) -> u64
    ensures value { result ≡ written_word (read_answer book.now sheet.old) }
    ensures sheet_after { sheet.new ≡ read_leaves book.now sheet.old }
{
    gate::fares_read(book, sheet)
}

// A sheet's book written into a lent buffer.
#[unsafe(no_mangle)]
pub extern "C" fn fares_write(sheet: &[u16], book: &mut [u8]) -> u64
    ensures value { result ≡ written_word (write_answer sheet.now book.old) }
    ensures book_after { book.new ≡ write_leaves sheet.now book.old }
{
    gate::fares_write(sheet, book)
}

// The price of a given route.
#[unsafe(no_mangle)]
pub extern "C" fn fares_price(book: &[u8], route: &[u8], answer: &mut [u16]) -> u64
    ensures { Tells (price_of book.now route.now) answer.old result answer.new }
{
    gate::fares_price(book, route, answer)
}

// The cheapest route between two stations.
#[unsafe(no_mangle)]
pub extern "C" fn fares_cheapest(
    book: &[u8],
    from_company: u8,
    from_station: u8,
    to_company: u8,
    to_station: u8,
    limit: u8,
    answer: &mut [u16],
) -> u64
    ensures { TellsCheapest book.now (question from_company from_station to_company to_station limit) answer.old result answer.new }
{
    gate::fares_cheapest(
        book,
        from_company,
        from_station,
        to_company,
        to_station,
        limit,
        answer,
    )
}
