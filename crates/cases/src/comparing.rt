// Whether a night file gives exactly the lines expected.
use run::NIGHT_CEILING;

// The buffer takes all lines of a case at once: what does not fit differs. The night program's own stored run has more lines
// than one buffer takes.
pub fn file_agrees(file: &[u8], expected: &[u8]) -> bool {
    let mut buffer = [0u8; 65536];
    let schedule = nightfile::schedule_part(file);
    let filled = run::fill(course::begin(file), schedule, NIGHT_CEILING, &mut buffer);
    filled.run.over && &buffer[..filled.used] == expected
}
