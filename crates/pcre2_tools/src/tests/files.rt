//! Names of the system's files.
use super::*;
use pcre_io::StdFiles;

// A test starts in an empty folder.
#[test]
fn a_directory_and_a_missing_file_cannot_be_opened(rt: HostRuntime) -> Result<(), Fail> {
    static ROWS: [Row; 4] = [
        ("pcre2grep x . ! pcre2grep: .: cannot be opened\n", 2),
        ("pcre2grep -f . x ! pcre2grep: .: cannot be opened\n", 2),
        (
            "pcre2grep x missing ! pcre2grep: missing: cannot be opened\n",
            2,
        ),
        ("pcre2test . ! pcre2test: .: cannot be opened\n", 1),
    ];
    for (row, status) in &ROWS {
        let mut files = StdFiles::new(&rt);
        let is_told = is_told(rt.alloc(), &mut files, &unfailing(b""), row, *status)?;
        assert!(&rt; is_told);
    }
    Ok(())
}
