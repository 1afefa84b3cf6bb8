//! Laws of the definitions, each the contract of a function that does nothing.
//!
//! A definition says how bytes are read; a law says that what is read is what the standard spells,
//! and nothing else.

ghost use Rattle.std.specs.Prelude.{◌≡◌, ◌↔◌, ◌⊎◌, ◌<◌, ◌^◌, ◌++◌, ℕ, ℤ, List};
ghost use Rattle.std.specs.Prelude.{◌≤◌, ◌+◌, length, drop, Some, None};
ghost use Rattle.std.specs.List.{AllByRecursion};
ghost use Rattle.std.specs.Prelude.{Option, Result, Ok, Err, IsTrue};
ghost use Rattle.dw_model.specs.Reading.{Place, start, Spans, BeginsWith, AreRead};
ghost use Rattle.dw_model.specs.Leb.{IsLeb, IsUleb, IsSleb, fits_i64};
ghost use Rattle.dw_model.specs.Leb.{BeginsTooWide, BeginsTooWideSigned, uleb_at, sleb_at};
ghost use Rattle.dw_model.specs.Form.{Value, value_at, Spells, IsUnknown, IsWide};
ghost use Rattle.dw_model.specs.Abbrev.{Declaration, next_specification, next_declaration, abbreviations};
ghost use Rattle.dw_model.specs.Entry.{Entry};
ghost use Rattle.dw_model.specs.Ranges.{Range, RangeEntry, next_range_entry, range_entries};
ghost use Rattle.dw_model.specs.Tree.{next_node};
ghost use Rattle.dw_model.specs.InitialLength.{Width, of_length, initial_length, IsInitialLength};
ghost use Rattle.dw_model.specs.Unit.{Test, DwarfUnit, next_piece, cut_from, Content, AreContents, AreUnits, StandsIn};
ghost use Rattle.dw_model.specs.Text.{Tables, Bases, number_in, text_in};
ghost use Rattle.dw_model.specs.Section.{Sections};
ghost use Rattle.dw_model.specs.Root.{entry};
ghost use Rattle.dw_model.specs.LineHeader.{LineHeader, line_header};
ghost use Rattle.dw_model.specs.Instruction.{Instruction, instructions, next_instruction};
ghost use Rattle.dw_model.specs.Instruction.{IsInstruction, AreInstructions};
ghost use Rattle.dw_model.specs.Matrix.{matrix};
ghost use Rattle.dw_model.specs.Registers.{initial, run};
ghost use Rattle.dw_model.specs.Faults.{Fault, ends_early, unknown_form, too_wide, Bad};
ghost use Rattle.dw_model.specs.Answer.{Location, Piece};
ghost use Rattle.dw_model.specs.Pieces.{UnitFault, pieces_from, ArePieces, IsFirstFault, with_piece, HaveLocation};

/// An unsigned LEB128 number is read exactly where the bytes begin with a spelling of one that
/// fits 64 bits; it is too wide exactly where they begin with a spelling of one that doesn't; else
/// they end before it does (section 7.6).
pub fn law_of_uleb()
    ensures spelled { (p q : Place) (n : ℕ) → (uleb_at p ≡ Ok (n, q))
        ↔ Spans (λ piece. IsUleb piece n × (n < 2 ^ 64)) p q }
    ensures wide { (p : Place) → (uleb_at p ≡ Err too_wide) ↔ BeginsTooWide p.left }
    ensures ends { (p : Place) → (uleb_at p ≡ Err ends_early) ↔ (BeginsWith IsLeb p.left → ⊥) }
    ensures no_other { (p : Place) (fault : Fault) → uleb_at p ≡ Err fault → (fault ≡ ends_early) ⊎ (fault ≡ too_wide) }
{}

/// The same for signed numbers (section 7.6).
pub fn law_of_sleb()
    ensures spelled { (p q : Place) (z : ℤ) → (sleb_at p ≡ Ok (z, q))
        ↔ Spans (λ piece. IsSleb piece z × IsTrue (fits_i64 z)) p q }
    ensures wide { (p : Place) → (sleb_at p ≡ Err too_wide) ↔ BeginsTooWideSigned p.left }
    ensures ends { (p : Place) → (sleb_at p ≡ Err ends_early) ↔ (BeginsWith IsLeb p.left → ⊥) }
    ensures no_other { (p : Place) (fault : Fault) → sleb_at p ≡ Err fault → (fault ≡ ends_early) ⊎ (fault ≡ too_wide) }
{}

/// No spelling of a LEB128 number begins another.
pub fn law_of_one_spelling()
    ensures alone { (first second rest others : List ℕ) → IsLeb first → IsLeb second
        → first ++ rest ≡ second ++ others → first ≡ second }
{}

/// The value of a form is read exactly where the bytes begin with a spelling of it, through any
/// number of DW_FORM_indirect. Else the fault is the form where that is unknown, or has its number
/// in no declaration; the width, where a whole LEB128 number doesn't fit 64 bits; and the end in
/// all other cases (sections 7.5.5 and 7.5.6). `size` is that of an offset, `constant` the number
/// that is in the declaration.
pub fn law_of_values()
    ensures spelled { (size form : ℕ) (constant : Option ℤ) (p q : Place) (v : Value)
        → (value_at size form constant p ≡ Ok (v, q)) ↔ Spans (λ piece. Spells size form constant piece v) p q }
    ensures unknown { (size form : ℕ) (constant : Option ℤ) (p : Place)
        → (value_at size form constant p ≡ Err unknown_form) ↔ IsUnknown form constant p.left }
    ensures wide { (size form : ℕ) (constant : Option ℤ) (p : Place)
        → (value_at size form constant p ≡ Err too_wide) ↔ IsWide form p.left }
    ensures no_other { (size form : ℕ) (constant : Option ℤ) (p : Place) (fault : Fault)
        → value_at size form constant p ≡ Err fault
        → (fault ≡ ends_early) ⊎ (fault ≡ unknown_form) ⊎ (fault ≡ too_wide) }
    ensures alone { (size form : ℕ) (constant : Option ℤ) (first second rest others : List ℕ) (v w : Value)
        → Spells size form constant first v → Spells size form constant second w → first ++ rest ≡ second ++ others
        → (first ≡ second) × (v ≡ w) }
{}

/// The instructions of a line program are exactly those whose spellings, one after the other, are
/// its bytes; so a program that is none such is bad. No spelling of an instruction begins another
/// (section 6.2.5).
pub fn law_of_line_programs()
    ensures spelled { (header : LineHeader) (list : List Instruction) → (instructions header ≡ Ok list)
        ↔ AreInstructions header header.program list }
    ensures alone { (header : LineHeader) (first second rest others : List ℕ) (i j : Instruction)
        → IsInstruction header first i → IsInstruction header second j → first ++ rest ≡ second ++ others
        → (first ≡ second) × (i ≡ j) }
{}

/// The registers of the line number machine, whose numbers run modulo 2^64, append the rows of the
/// matrix, which is defined by sums (section 6.2.2).
pub fn law_of_registers()
    ensures matrix { (header : LineHeader) (list : List Instruction) → matrix header list ≡ run header initial list }
{}

/// What is read one item after the other is the items that are there by the relation, whichever
/// bound the reading has: the pairs of a declaration, the declarations of a table, the entries of a
/// range list, the instructions of a line program, the nodes of a tree and the pieces of
/// .debug_info.
pub fn law_of_items()
    ensures specifications { AreRead (λ p. p.left) next_specification }
    ensures declarations { AreRead (λ p. p.left) next_declaration }
    ensures range_entries { AreRead (λ p. p.left) next_range_entry }
    ensures instructions { (header : LineHeader) → AreRead (λ p. p.left) (next_instruction header) }
    ensures nodes { (ranges : Entry → Result (List Range) Bad) (size : ℕ) (declarations : List Declaration)
        → AreRead (λ s. s.place.left) (next_node ranges size declarations) }
    ensures pieces { (test : Test) → AreRead (λ p. p.left) (next_piece test) }
{}

/// A length of the 32-bit or of the 64-bit format is read exactly where the bytes begin with one
/// (section 7.4).
pub fn law_of_initial_lengths()
    ensures spelled { (width : Width) (n : ℕ) (p q : Place) → (initial_length p ≡ Some (of_length n width, q))
        ↔ Spans (IsInitialLength width n) p q }
{}

/// .debug_info is cut into units in one way: where it is read, it is pieces, each a length and as
/// many bytes, and the units are those of the pieces that aren't empty; where such pieces with such
/// units are there, it is read so; and no other pieces do (section 7.5.1).
pub fn law_of_the_cut()
    ensures cut { (test : Test) (info : List ℕ) (found : List DwarfUnit) → (cut_from test (start info) ≡ Ok found)
        ↔ ((contents : List Content) × AreContents info contents × AreUnits test 0 contents found) }
    ensures only { (info : List ℕ) (first second : List Content) → AreContents info first → AreContents info second
        → first ≡ second }
{}

/// The length of a section bounds each offset at which a definition reads something in it: so an
/// offset that is larger, be it a sum without bounds, reads nothing.
pub fn law_of_bounds()
    ensures units { (test : Test) (info : List ℕ) (found : List DwarfUnit) → cut_from test (start info) ≡ Ok found
        → AllByRecursion (StandsIn (length info)) found }
    ensures entries { (sections : Sections) (unit : DwarfUnit) (offset : ℕ) (found : Option Entry × Place)
        → entry sections unit offset ≡ Ok found
        → (unit.first_entry ≤ offset) × (offset < unit.end) × (offset < length sections.info) }
    ensures abbreviations { (section : List ℕ) (offset : ℕ) (found : List Declaration)
        → abbreviations section offset ≡ Ok found → offset ≤ length section }
    ensures numbers { (section : List ℕ) (offset n x : ℕ) → 0 < n → number_in section offset n ≡ Some x
        → offset + n ≤ length section }
    ensures texts { (section : List ℕ) (offset : ℕ) (text : List ℕ) → text_in section offset ≡ Some text
        → offset + length text < length section }
    ensures range_lists { (section : List ℕ) (offset : ℕ) (found : List RangeEntry)
        → range_entries (record { at = offset; left = drop offset section }) ≡ Ok found → offset < length section }
    ensures line_tables { (tables : Tables) (bases : Bases) (section : List ℕ) (offset : ℕ) (found : LineHeader)
        → line_header tables bases section offset ≡ Ok found → offset + 4 ≤ length section }
{}

/// The pieces of a span of addresses are the one list that lies in order, in which an address lies
/// exactly where it has a location, and of which two that touch have different locations; they are
/// found exactly where no address has a fault, and else the fault of the first that has one.
/// `location` is what each address is found to have.
pub fn law_of_pieces()
    ensures pieces { (location : ℕ → Result (Option Location) UnitFault) (low count : ℕ) (found : List Piece)
        → (pieces_from location low count ≡ Ok found) ↔ ArePieces location low (low + count) found }
    ensures fault { (location : ℕ → Result (Option Location) UnitFault) (low count : ℕ) (found : UnitFault)
        → (pieces_from location low count ≡ Err found) ↔ IsFirstFault location low (low + count) found }
{}

/// Pieces can be found in order of address: those of a span stay its pieces where it goes on over
/// addresses without a location, and where it goes on over addresses of one location, that is one
/// piece more, or the last one grows.
pub fn law_of_more_pieces()
    ensures none { (location : ℕ → Result (Option Location) UnitFault) (low high later : ℕ) (pieces : List Piece)
        → ArePieces location low high pieces → high ≤ later → HaveLocation location high later None
        → ArePieces location low later pieces }
    ensures one { (location : ℕ → Result (Option Location) UnitFault) (low : ℕ) (pieces : List Piece)
        (next : Piece) → ArePieces location low next.begin pieces → low ≤ next.begin → next.begin < next.end
        → HaveLocation location next.begin next.end (Some next.location)
        → ArePieces location low next.end (with_piece pieces next) }
{}
