// A sheet's book reads back as the sheet, and a book's sheet is written again as the book: proofs/ holds the theorems, and there is no code.
#![tactic(auto)]
