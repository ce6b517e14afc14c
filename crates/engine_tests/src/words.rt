//! With ample memory each form is read; texts that are close to a form are none.

use shr_words::form_of;
use std::alloc::Global;
use std::test::Fail;

// What these words give, as text.
fn read(alloc: Global, words: &[&str]) -> Result<String, Fail> {
    let mut given = Vec::new(alloc);
    for word in words {
        given.push(String::from_str(alloc, word)?)?;
    }
    let text = match form_of(alloc, &given) {
        Ok(form) => format!(in alloc; "{form:?}")?,
        Err(fault) => format!(in alloc; "{fault:?}")?,
    };
    Ok(text)
}

#[test]
fn each_form_and_what_is_none(rt: HostRuntime) -> Result<(), Fail> {
    let rows: [(&[&str], &str); 18] = [
        (&["create", "128", "A", "B"], "Create { extent: 128 }"),
        (&["serve", "A"], "Serve"),
        (&["import", "A", "B", "C"], "Import"),
        (&["export", "A"], "Export"),
        (&["status", "A", "A"], "Status"),
        (&["examine", "A"], "Examine"),
        (
            &["trial", "18446744073709551615", "A"],
            "Trial { seed: 18446744073709551615 }",
        ),
        (&["trial", "18446744073709551616", "A"], "Wrong"),
        (&["trial", "+1", "A"], "Wrong"),
        (&["trial", "7"], "Wrong"),
        (&["examine", "A", "B"], "Wrong"),
        (&["import"], "Wrong"),
        (&["serve", "--x", "A"], "Wrong"),
        (&["serve", "A", "--"], "Wrong"),
        (&["help"], "Wrong"),
        (&["help", "serve"], "Wrong"),
        (&["create", "100", "A", "B"], "Wrong"),
        (&[], "Wrong"),
    ];
    for (words, want) in rows {
        let got = read(rt.alloc(), words)?;
        assert_eq!(rt; got.as_str(), want, "{words:?}");
    }
    Ok(())
}
