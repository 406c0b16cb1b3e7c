// A story told over both growing records, the first with so many rows. A macro, since a closure is of one type of record.
macro_rules! over_both {
    ($rt:expr, $rows:literal, $story:ident) => {{
        let mut rows = [records::readable::BLANK; $rows];
        $story($rt, records::table::TableRecord::new(&mut rows))?;
        $story($rt, records::change_record::ChangeRecord::new())
    }};
}

pub(crate) use over_both;
