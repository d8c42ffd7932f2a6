// Forms of each class, read from their texts and written.
use awk_edge::{MemSink, Out};
use awk_form::{Form, read_form, write_form};
use serde_json::Value;
use std::alloc::Global;
use std::test::Fail;

// A node of each class, as it is written.
const TEXTS: [&str; 13] = [
    r#"{"class":"EmptyArray","parameters":{},"form_key":null}"#,
    r#"{"class":"NumpyArray","primitive":"bool","inner_shape":[],"parameters":{},"form_key":"n"}"#,
    r#"{"class":"NumpyArray","primitive":"uint16","inner_shape":[2,18446744073709551615],"parameters":{},"form_key":"n"}"#,
    r#"{"class":"RegularArray","size":3,"content":{"class":"EmptyArray","parameters":{},"form_key":""},"parameters":{},"form_key":null}"#,
    r#"{"class":"ListArray","starts":"i32","stops":"u32","content":{"class":"EmptyArray","parameters":{},"form_key":null},"parameters":{},"form_key":"n"}"#,
    r#"{"class":"ListOffsetArray","offsets":"i64","content":{"class":"EmptyArray","parameters":{},"form_key":null},"parameters":{},"form_key":"n"}"#,
    r#"{"class":"RecordArray","fields":["pt","\n"],"contents":[{"class":"EmptyArray","parameters":{},"form_key":null},{"class":"EmptyArray","parameters":{},"form_key":"\"n\""}],"parameters":{},"form_key":null}"#,
    r#"{"class":"IndexedArray","index":"u32","content":{"class":"RecordArray","fields":null,"contents":[],"parameters":{},"form_key":null},"parameters":{},"form_key":"n"}"#,
    r#"{"class":"IndexedOptionArray","index":"i32","content":{"class":"EmptyArray","parameters":{},"form_key":null},"parameters":{},"form_key":"n"}"#,
    r#"{"class":"ByteMaskedArray","mask":"i8","valid_when":true,"content":{"class":"EmptyArray","parameters":{},"form_key":null},"parameters":{},"form_key":"n"}"#,
    r#"{"class":"BitMaskedArray","mask":"u8","valid_when":false,"lsb_order":true,"content":{"class":"EmptyArray","parameters":{},"form_key":null},"parameters":{},"form_key":"n"}"#,
    r#"{"class":"UnmaskedArray","content":{"class":"EmptyArray","parameters":{},"form_key":null},"parameters":{},"form_key":null}"#,
    r#"{"class":"UnionArray","tags":"i8","index":"i64","contents":[{"class":"EmptyArray","parameters":{},"form_key":null}],"parameters":{},"form_key":"n"}"#,
];

fn form_from(alloc: Global, text: &str) -> Result<Form, Fail> {
    Ok(read_form(alloc, &Value::from_str(alloc, text)?)?)
}

fn written(alloc: Global, form: &Form) -> Result<MemSink, Fail> {
    let mut sink = MemSink::new(alloc, 1024, 1024, &[])?;
    let mut out = Out::new();
    write_form(form, &mut out, &mut sink)?;
    out.flush(&mut sink)?;
    Ok(sink)
}

// What is read is written as the text, and what is read from that is written so again.
#[test]
fn writes_each_class(rt: HostRuntime) -> Result<(), Fail> {
    let alloc = rt.alloc();
    for text in TEXTS {
        let first = written(alloc, &form_from(alloc, text)?)?;
        let again = written(
            alloc,
            &form_from(alloc, std::str::from_utf8(first.written())?)?,
        )?;
        assert!(rt; first.written() == text.as_bytes() && again.written() == text.as_bytes());
    }
    Ok(())
}
