// A fare book that the judge finds good.
ghost use Rattle.outline.specs.Valid.{ValidBook};

use lookup::book::Book;

#[derive(Clone, Copy)]
pub struct GoodBook<'a> {
    pub book: Book<'a>,
    pub ghost valid: { ValidBook book.bytes.now },
}
