//! The loop that reads more of the same.

// Each mark with what stands behind it, while `$mark` reads one; `$operand` reads what stands behind.
macro_rules! more_of {
    ($alloc:expr, $mark:expr, $operand:expr) => {{
        let mut more = Items::new($alloc);
        while let Some(mark) = $mark {
            let operand = $operand?;
            more.push((mark, operand))?;
        }
        Ok(more)
    }};
}

pub(crate) use more_of;
