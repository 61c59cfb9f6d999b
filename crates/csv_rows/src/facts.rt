// What the rows of small texts are.
ghost use Rattle.std.specs.Prelude.{◌≡◌, ◌∷◌, ◌++◌, [], List, ℕ, codes, map};
ghost use Rattle.csv.specs.Reading.{strip_bom};
ghost use Rattle.csv.specs.Writing.{default_writer, field_text, read_back};
ghost use Rattle.csv_rows.specs.Rows.{rows_of, rows_text};

/// What the rows of small texts are: empty lines give no row, CR and LF each end one, a last row needs no LF, quotes
/// keep commas and line ends, and one byte order mark at the start is no data.
pub fn row_facts()
    ensures nothing { rows_of [] ≡ [] }
    ensures empty_lines { rows_of (codes "\n\na\n\n\nb\n\n") ≡ (codes "a" ∷ []) ∷ (codes "b" ∷ []) ∷ [] }
    ensures no_last_lf { rows_of (codes "a,b") ≡ (codes "a" ∷ codes "b" ∷ []) ∷ [] }
    ensures lone_cr { rows_of (codes "a\rb\r\nc") ≡ (codes "a" ∷ []) ∷ (codes "b" ∷ []) ∷ (codes "c" ∷ []) ∷ [] }
    ensures comma_line { rows_of (codes ",\n") ≡ ([] ∷ [] ∷ []) ∷ [] }
    ensures blank_line { rows_of (codes " \n") ≡ (codes " " ∷ []) ∷ [] }
    ensures two_quotes { rows_of (codes "\"\"\n") ≡ ([] ∷ []) ∷ [] }
    ensures open_quote { rows_of (codes "\"a\nb") ≡ (codes "a\nb" ∷ []) ∷ [] }
    ensures quote_inside { rows_of (codes "a\"b\"\n") ≡ (codes "a\"b\"" ∷ []) ∷ [] }
    ensures after_quote { rows_of (codes "\"a\"b,c\n") ≡ (codes "ab" ∷ codes "c" ∷ []) ∷ [] }
    ensures mark { rows_of (239 ∷ 187 ∷ 191 ∷ codes "a\n") ≡ (codes "a" ∷ []) ∷ [] }
    ensures flexible { rows_of (codes "a\nb,c\n") ≡ (codes "a" ∷ []) ∷ (codes "b" ∷ codes "c" ∷ []) ∷ [] }
    ensures any_byte { rows_of (0 ∷ 44 ∷ 255 ∷ 10 ∷ []) ≡ ((0 ∷ []) ∷ (255 ∷ []) ∷ []) ∷ [] }
{}

/// What is written reads back, but that a row of no fields reads back as one empty field, and but for a byte order mark
/// at its start: of that a text is free whose first field begins with none.
pub fn round_trip()
    ensures reads_back { (rows : List (List (List ℕ))) → strip_bom (rows_text rows) ≡ rows_text rows → rows_of (rows_text rows) ≡ map read_back rows }
    ensures unmarked { (name rest : List ℕ) → strip_bom name ≡ name → strip_bom (field_text default_writer name ++ 44 ∷ rest) ≡ field_text default_writer name ++ 44 ∷ rest }
{}
