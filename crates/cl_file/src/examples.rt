//! What files read as, by example.
ghost use Rattle.std.specs.Prelude.{◌≡◌, [], ◌∷◌, codes, decimal, option_map, option_and_then, Some, None, Ok, Err};
ghost use Rattle.cl_forms.specs.declared.version.Version.TheVariants.{One, Two};
ghost use Rattle.cl_file.specs.Kinds.{clarity};
ghost use Rattle.cl_file.specs.Paths.{below};
ghost use Rattle.cl_file.specs.Objects.{Values};
ghost use Rattle.cl_file.specs.Epochs.{epoch_above};
ghost use Rattle.cl_file.specs.Files.{json_file};
ghost use Rattle.std.specs.Str.{chars};
ghost use Rattle.serde_json.specs.Read.{read};
ghost use Rattle.cl_file.specs.declared.entry.Entry.TheVariants as entry;
ghost use Rattle.cl_file.specs.declared.refusal.TxRefusal.TheVariants.{NotJson, Field, BadValue, HeightFalls, Version};

/// The file of one block, a version that is neither 1 nor 2, the least unknown member, and a height
/// that falls.
pub fn files_by_example()
    ensures block { (v : Values) →
        json_file v (read (codes
        "{\"version\":1,\"genesis\":[],\"entries\":[{\"block\":{\"height\":2}}]}"))
        ≡ Ok (record { genesis = []; epochs = []; entries = entry.Block 2 ∷ [] }) }
    ensures version { (v : Values) →
        json_file v (read (codes "{\"version\":3,\"x\":0}")) ≡ Err Version }
    ensures unknown { (v : Values) →
        json_file v (read (codes "{\"version\":1,\"y\":0,\"x\":0}"))
        ≡ Err (Field (chars (codes "/x"))) }
    ensures falls { (v : Values) →
        json_file v (read (codes
        "{\"version\":1,\"genesis\":[],\"entries\":[{\"block\":{\"height\":2}},{\"block\":{\"height\":1}}]}"))
        ≡ Err (HeightFalls (chars (below (below (codes "/entries") (decimal 1)) (codes "block/height")))) }
{}

/// Members that are absent, an entry of another kind, one with no member, a height that is no
/// number, and a holder without a principal.
pub fn faults_by_example()
    ensures no_object { (v : Values) → json_file v (read (codes "[]")) ≡ Err NotJson }
    ensures no_version { (v : Values) → json_file v (read (codes "{}")) ≡ Err Version }
    ensures absent { (v : Values) →
        json_file v (read (codes "{\"version\":1}")) ≡ Err (Field (chars (codes "/genesis"))) }
    ensures kind { (v : Values) →
        json_file v (read (codes "{\"version\":1,\"genesis\":[],\"entries\":[{\"x\":{}}]}"))
        ≡ Err (Field (chars (below (below (codes "/entries") (decimal 0)) (codes "x")))) }
    ensures alone { (v : Values) →
        json_file v (read (codes "{\"version\":1,\"genesis\":[],\"entries\":[{}]}"))
        ≡ Err (BadValue (chars (below (codes "/entries") (decimal 0)))) }
    ensures height { (v : Values) →
        json_file v (read (codes
        "{\"version\":1,\"genesis\":[],\"entries\":[{\"block\":{\"height\":null}}]}"))
        ≡ Err (BadValue (chars (below (below (below (codes "/entries") (decimal 0)) (codes "block")) (codes "height")))) }
    ensures holder { (v : Values) →
        json_file v (read (codes "{\"version\":1,\"genesis\":[{\"stx\":\"u1\"}],\"entries\":[]}"))
        ≡ Err (Field (chars (below (below (codes "/genesis") (decimal 0)) (codes "principal")))) }
{}

/// Files of version 2: one with no epochs, and epochs that have a fault; and an epoch in a file of
/// version 1.
pub fn epochs_by_example()
    ensures none { (v : Values) →
        json_file v (read (codes "{\"version\":2,\"genesis\":[],\"epochs\":[],\"entries\":[]}"))
        ≡ Ok (record { genesis = []; epochs = []; entries = [] }) }
    ensures first { (v : Values) →
        json_file v (read (codes "{\"version\":1,\"epochs\":[]}"))
        ≡ Err (Field (chars (codes "/epochs"))) }
    ensures absent { (v : Values) →
        json_file v (read (codes "{\"version\":2,\"genesis\":[]}"))
        ≡ Err (Field (chars (codes "/epochs"))) }
    ensures no_array { (v : Values) →
        json_file v (read (codes "{\"version\":2,\"genesis\":[],\"epochs\":0,\"entries\":[]}"))
        ≡ Err (BadValue (chars (codes "/epochs"))) }
    ensures no_object { (v : Values) →
        json_file v (read (codes "{\"version\":2,\"genesis\":[],\"epochs\":[0],\"entries\":[]}"))
        ≡ Err (BadValue (chars (below (codes "/epochs") (decimal 0)))) }
    ensures unknown { (v : Values) →
        json_file v (read (codes
        "{\"version\":2,\"genesis\":[],\"epochs\":[{\"height\":0,\"x\":1}],\"entries\":[]}"))
        ≡ Err (Field (chars (below (below (codes "/epochs") (decimal 0)) (codes "x")))) }
    ensures zero { (v : Values) →
        json_file v (read (codes
        "{\"version\":2,\"genesis\":[],\"epochs\":[{\"height\":0}],\"entries\":[]}"))
        ≡ Err (BadValue (chars (below (below (codes "/epochs") (decimal 0)) (codes "height")))) }
    ensures costs { (v : Values) →
        json_file v (read (codes
        "{\"version\":2,\"genesis\":[],\"epochs\":[{\"height\":1,\"costs\":{}}],\"entries\":[]}"))
        ≡ Err (BadValue (chars (below (below (codes "/epochs") (decimal 0)) (codes "costs")))) }
    ensures equal { (v : Values) →
        option_map (epoch_above v 5 (codes "/epochs/1"))
        (read (codes "{\"height\":5,\"costs\":{}}"))
        ≡ Some (Err (BadValue (chars (codes "/epochs/1/height")))) }
{}

/// What a number says of a text's version: 1 or 2, and nothing else does.
pub fn versions_by_example()
    ensures one { option_and_then clarity (read (codes "1")) ≡ Some One }
    ensures two { option_and_then clarity (read (codes "2")) ≡ Some Two }
    ensures zero { option_and_then clarity (read (codes "0")) ≡ None }
    ensures three { option_and_then clarity (read (codes "3")) ≡ None }
    ensures text { option_and_then clarity (read (codes "\"2\"")) ≡ None }
    ensures null { option_and_then clarity (read (codes "null")) ≡ None }
{}
