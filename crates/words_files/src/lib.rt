// The register file out of words, and whether they stand for one.
#![tactic(auto)]

ghost use Rattle.std.specs.Prelude.{◌≡◌, true};
ghost use Rattle.map.specs.Map.{part_of};
ghost use Rattle.words.specs.Words.{file_of};

// The register file that the words stand for.
pub fn to_file(words: &[u64; 28], part: u64, file: &mut [u8; 128])
    ensures { file.new ≡ file_of (part_of part) words.now }
{
    for n in 0..128u64 {
        file[n as usize] = words_entries::entry(words, words_tables::row_of(part, n));
    }
}

// Whether the words stand for this register file.
pub fn stand_for(words: &[u64; 28], part: u64, file: &[u8; 128]) -> bool
    ensures { (result ≡ true → file_of (part_of part) words.now ≡ file.now)
        × (file_of (part_of part) words.now ≡ file.now → result ≡ true) }
{
    for n in 0..128u64 {
        if words_entries::entry(words, words_tables::row_of(part, n)) != file[n as usize] {
            return false;
        }
    }
    true
}
