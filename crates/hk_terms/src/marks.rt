//! The marks between two operands.

ghost use Rattle.std.specs.Prelude.{◌≡◌, IfSome, IsNone};
ghost use Rattle.hk_terms.specs.declared.marks.Mark.{Mark};
ghost use Rattle.hk_terms.specs.Operands.{mark_text};

/// What stands between two operands in parentheses.
#[derive(Clone, Copy, Debug, PartialEq, Eq)]
pub enum Mark {
    Union,
    Common,
    Without,
    Plus,
    Minus,
    Times,
    AtMost,
    Below,
    AtLeast,
    Above,
    Equal,
    In,
    NotIn,
    Sub,
    And,
    Or,
    Comma,
}

/// The mark that this text is.
pub fn mark_of(text: &[u8]) -> Option<Mark>
    ensures some { IfSome result (λ mark. mark_text mark ≡ text.now) }
    ensures none { IsNone result → (mark : Mark) → mark_text mark ≡ text.now → ⊥ }
{
    match text {
        b"|" => Some(Mark::Union),
        b"&" => Some(Mark::Common),
        b"\\" => Some(Mark::Without),
        b"+" => Some(Mark::Plus),
        b"-" => Some(Mark::Minus),
        b"*" => Some(Mark::Times),
        b"<=" => Some(Mark::AtMost),
        b"<" => Some(Mark::Below),
        b">=" => Some(Mark::AtLeast),
        b">" => Some(Mark::Above),
        b"==" => Some(Mark::Equal),
        b"in" => Some(Mark::In),
        b"notin" => Some(Mark::NotIn),
        b"sub" => Some(Mark::Sub),
        b"and" => Some(Mark::And),
        b"or" => Some(Mark::Or),
        b"," => Some(Mark::Comma),
        _ => None,
    }
}
