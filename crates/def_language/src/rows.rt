//! Worked rows: inputs with the texts of their faults, and sessions with their printed forms.

ghost use Rattle.std.specs.Prelude.{◌≡◌, ◌++◌, codes};
ghost use Rattle.def_language.specs.Lines.{fault_text, read};
ghost use Rattle.std.specs.Prelude.{[], ◌∷◌, true, false};
ghost use Rattle.def_chase.specs.Mappings.{force};
ghost use Rattle.def_chase.specs.Values.{Unknown};
ghost use Rattle.def_language.specs.Printing.{printed_text, tuple_text};

/// Lexical faults: the leftmost one of a line comes before all other faults of the line.
pub fn lexical_faults()
    ensures bad_byte { fault_text (read (codes "youtopia 1\nrelation A 1 $\n")) ≡
        codes "session line 2: fault 10: bad byte at 24" }
    ensures long_line { fault_text (read (codes
        "youtopia 1\nrelation relation 9223372036854775808 $\nend\n")) ≡
        codes "session line 2: fault 12: number out of range at 29" }
    ensures least_number { fault_text (read (codes
        "youtopia 1\nrelation A 1\nbase A(-9223372036854775808)\nend\n")) ≡ codes "" }
    ensures wide_null { fault_text (read (codes
        "youtopia 1\nrelation A 1\nbase A(?0.4294967296)\nend\n")) ≡
        codes "session line 3: fault 12: number out of range at 31" }
    ensures open_text { fault_text (read (codes "youtopia 1\nrelation A 1\nbase A(\"x\\\nend\n")) ≡
        codes "session line 3: fault 11: text is not closed, opened at 31" }
    ensures bad_escape { fault_text (read (codes
        "youtopia 1\nrelation A 1\nbase A(\"\\t\")\nend\n")) ≡
        codes "session line 3: fault 10: bad byte at 33" }
    ensures after_end { fault_text (read (codes "youtopia 1\nend\nend $\n")) ≡
        codes "session line 3: fault 10: bad byte at 19" }
{}

/// Faults of a line's form, read from the left.
pub fn form_faults()
    ensures empty_input { fault_text (read (codes "")) ≡
        codes "session line 1: fault 20: header is not youtopia 1 or 2" }
    ensures third_format { fault_text (read (codes "youtopia 3\nend\n")) ≡
        codes "session line 1: fault 20: header is not youtopia 1 or 2" }
    ensures no_number { fault_text (read (codes "youtopia 1\nrelation A\nend\n")) ≡
        codes "session line 2: fault 21: expected number" }
    ensures no_value { fault_text (read (codes "youtopia 1\nrelation A 1\nbase A(x)\nend\n")) ≡
        codes "session line 3: fault 21: expected value" }
    ensures no_close { fault_text (read (codes "youtopia 1\nrelation A 1\nbase A(1\nend\n")) ≡
        codes "session line 3: fault 21: expected comma or close" }
    ensures no_arrow { fault_text (read (codes
        "youtopia 1\nrelation A 1\nmapping m: A(x)\nend\n")) ≡
        codes "session line 3: fault 21: expected comma or arrow" }
    ensures no_atom { fault_text (read (codes
        "youtopia 1\nrelation A 1\nmapping m: A(x) -> 1\nend\n")) ≡
        codes "session line 3: fault 21: expected name or end" }
    ensures no_operation { fault_text (read (codes
        "youtopia 1\nrelation A 1\nupdate a ann mapping m: A(x) -> A(x)\nend\n")) ≡
        codes "session line 3: fault 21: expected operation" }
    ensures no_with { fault_text (read (codes
        "youtopia 1\nrelation A 1\nupdate a ann replace ?0.1 2\nend\n")) ≡
        codes "session line 3: fault 21: expected with" }
    ensures no_comma { fault_text (read (codes
        "youtopia 1\nrelation A 1\nupdate a ann delete A(1)\nanswer a delete A(1) A(2)\nend\n")) ≡
        codes "session line 4: fault 21: expected comma or end" }
    ensures out_of_order { fault_text (read (codes
        "youtopia 1\nrelation A 1\nbase A(1)\nrelation B 1\nend\n")) ≡
        codes "session line 4: fault 21: expected statement" }
    ensures no_end { fault_text (read (codes "youtopia 1\nrelation A 1\n")) ≡
        codes "session line 3: fault 25: end is missing" }
    ensures after_end { fault_text (read (codes "youtopia 1\nend\n\n# x\nend\n")) ≡
        codes "session line 5: fault 26: something follows end" }
{}

/// Faults that the checks of a statement find.
pub fn check_faults()
    ensures unknown_relation { fault_text
        (read (codes "youtopia 1\nrelation A 1\nupdate a ann insert B(1)\nend\n")) ≡
        codes "session line 3: fault 1: unknown relation B" }
    ensures arity { fault_text (read (codes "youtopia 1\nrelation A 1\nbase A(1, 2)\nend\n")) ≡
        codes "session line 3: fault 2: relation A has 1 columns, found 2" }
    ensures empty_side { fault_text (read (codes
        "youtopia 1\nrelation A 1\nmapping m: A(x) ->\nend\n")) ≡
        codes "session line 3: fault 3: empty side" }
    ensures many_atoms { fault_text (read (
        codes "youtopia 1\nrelation A 1\n" ++
        codes "mapping m: A(x), A(x), A(x), A(x), A(x), A(x), A(x), A(x), A(x) -> A(y)\n" ++
        codes "end\n")) ≡
        codes "session line 3: fault 4: more than 8 atoms on a side" }
    ensures twice { fault_text (read (codes "youtopia 1\nrelation A 1\nrelation A 2\nend\n")) ≡
        codes "session line 3: fault 5: name A is used twice" }
    ensures nine_columns { fault_text (read (codes "youtopia 1\nrelation A 9\nend\n")) ≡
        codes "session line 2: fault 24: limit reached: arity" }
    ensures plain_cycle { fault_text (read (
        codes "youtopia 1\nrelation A 1\nrelation B 1\nrelation C 2\n" ++
        codes "mapping m1: A(x) -> B(x)\nmapping m2: B(x) -> A(x), C(x, z)\nend\n")) ≡
        codes "session line 6: fault 6: mapping m2 closes a plain cycle" }
    ensures added_cycle { fault_text (read (
        codes "youtopia 2\nrelation A 1\nrelation B 1\nbase A(1)\n" ++
        codes "update a ann mapping m: A(x) -> B(x)\nupdate b bob insert A(2)\n" ++
        codes "update c cy mapping n: B(x) -> A(x)\nend\n")) ≡
        codes "session line 7: fault 6: mapping n closes a plain cycle" }
    ensures null_not_below { fault_text (read (
        codes "youtopia 1\nrelation A 1\nupdate a ann insert A(1)\n" ++
        codes "update b ann insert A(2)\nupdate c ann insert A(?3.1)\nend\n")) ≡
        codes "session line 5: fault 23: null ?3.1 is not below" }
    ensures base_null { fault_text (read (codes "youtopia 1\nrelation A 1\nbase A(?1.1)\nend\n")) ≡
        codes "session line 3: fault 23: null ?1.1 is not below" }
    ensures unknown_label { fault_text (read (codes
        "youtopia 1\nrelation A 1\nanswer a expand\nend\n")) ≡
        codes "session line 3: fault 22: unknown label a" }
{}

/// Sessions with their printed forms.
pub fn printed_sessions()
    ensures spacing { printed_text (read (codes
        "youtopia   1  # spacing\nrelation A 1\nbase A( 007 )\nbase A(7)\nend\n")) ≡
        codes "youtopia 1\nrelation A 1\nbase A(7)\nend\n" }
    ensures format_check { printed_text (read (
        codes "youtopia 1\nrelation A 01\n\n\trelation B 2\r\n" ++
        codes "mapping m : A(x)->B(x,\"\\\"\\\\\\n\")  # m\nbase A(?0.01)\nbase A(-0)\n" ++
        codes "end")) ≡
        codes "youtopia 1\nrelation A 1\nrelation B 2\n" ++
        codes "mapping m: A(x) -> B(x, \"\\\"\\\\\\n\")\nbase A(0)\nbase A(?0.1)\nend\n" }
    ensures answers_follow_updates { printed_text
        (read (codes "youtopia 1\nrelation A 1\nupdate a ann insert A(1)\n" ++
        codes "update b bob delete A(1)\nanswer b delete A(1),A(2)\n" ++
        codes "answer a unify A(?1.1)\nanswer a expand\nend\n")) ≡
        codes "youtopia 1\nrelation A 1\nupdate a ann insert A(1)\n" ++
        codes "answer a unify A(?1.1)\nanswer a expand\nupdate b bob delete A(1)\n" ++
        codes "answer b delete A(1), A(2)\nend\n" }
    ensures added_mapping { printed_text (read (
        codes "youtopia 2\nrelation A 1\nrelation B 1\nbase A(1)\n" ++
        codes "update a ann mapping m: A(x) -> B(y)\n" ++
        codes "update b bob replace ?1.2 with \"x\"\nend\n")) ≡
        codes "youtopia 2\nrelation A 1\nrelation B 1\nbase A(1)\n" ++
        codes "update a ann mapping m: A(x) -> B(y)\n" ++
        codes "update b bob replace ?1.2 with \"x\"\nend\n" }
{}

/// Printed tuples: one that says that a mapping is in force, and the two spellings of a null.
pub fn printed_tuples()
    ensures forced { tuple_text [] true (force 12) ≡ codes "*12" }
    ensures inner { tuple_text (record { name = codes "A"; arity = 1 } ∷ []) true
        (record {
          relation = 0;
          values = Unknown (record { update = 3; attempt = 1; place = 2 }) ∷ [];
        }) ≡
        codes "A(?3.2@1)" }
    ensures outer { tuple_text (record { name = codes "A"; arity = 1 } ∷ []) false
        (record {
          relation = 0;
          values = Unknown (record { update = 3; attempt = 1; place = 2 }) ∷ [];
        }) ≡
        codes "A(?3.2)" }
{}

/// The other parts that can be missing at the first word of a line that does not fit.
pub fn wanted_faults()
    ensures statement { fault_text (read (codes "youtopia 1\nrelations A 1\n")) ≡
        codes "session line 2: fault 21: expected statement" }
    ensures name { fault_text (read (codes "youtopia 1\nrelation 1\n")) ≡
        codes "session line 2: fault 21: expected name" }
    ensures colon { fault_text (read (codes
        "youtopia 1\nrelation A 1\nmapping m A(x) -> A(x)\n")) ≡
        codes "session line 3: fault 21: expected colon" }
    ensures open_ { fault_text (read (codes "youtopia 1\nrelation A 1\nbase A 1\n")) ≡
        codes "session line 3: fault 21: expected open" }
    ensures term { fault_text (read (codes
        "youtopia 1\nrelation A 1\nmapping m: A(?0.1) -> A(x)\n")) ≡
        codes "session line 3: fault 21: expected term" }
    ensures null { fault_text (read (codes
        "youtopia 1\nrelation A 1\nupdate a ann replace 1 with 2\n")) ≡
        codes "session line 3: fault 21: expected null" }
    ensures name_or_arrow { fault_text (read (codes
        "youtopia 1\nrelation A 1\nmapping m: 1 -> A(x)\n")) ≡
        codes "session line 3: fault 21: expected name or arrow" }
    ensures comma_or_end { fault_text (read (codes
        "youtopia 1\nrelation A 1\nmapping m: A(x) -> A(y) A(x)\n")) ≡
        codes "session line 3: fault 21: expected comma or end" }
    ensures choice { fault_text (read (codes
        "youtopia 1\nrelation A 1\nupdate a ann insert A(1)\nanswer a 1\n")) ≡
        codes "session line 4: fault 21: expected choice" }
    ensures end_of_line { fault_text (read (codes "youtopia 1\nrelation A 1 1\n")) ≡
        codes "session line 2: fault 21: expected end of line" }
{}
