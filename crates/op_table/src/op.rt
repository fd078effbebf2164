ghost use Rattle.std.specs.Prelude.{◌≡◌, ◌≢◌, ◌↔◌, Some, IsNone, find, bytes_eq};
ghost use Rattle.op_table.specs.declared.op.Op.{Op};
ghost use Rattle.op_table.specs.Operator.{op_word, graph_word};
ghost use Rattle.op_table.specs.Table.{op_named};

/// An operator.
#[derive(Clone, Copy, Debug, PartialEq, Eq, PartialOrd, Ord, Hash)]
pub enum Op {
    /// The sum modulo 2^w.
    Add,
    /// The difference modulo 2^w.
    Sub,
    /// The product modulo 2^w.
    Mul,
    /// The unsigned quotient; all ones where the divisor is 0.
    Udiv,
    /// The unsigned remainder; the dividend where the divisor is 0.
    Urem,
    /// The signed quotient, cut towards zero; all ones where the divisor is 0.
    Sdiv,
    /// The signed remainder, with the dividend's sign; the dividend where the divisor is 0.
    Srem,
    /// Bit by bit, 1 where both are 1.
    And,
    /// Bit by bit, 1 where one is 1.
    Or,
    /// Bit by bit, 1 where they differ.
    Xor,
    /// The first shifted to the left by the second.
    Shl,
    /// The first shifted to the right by the second, filled with zeros.
    Lshr,
    /// The first shifted to the right by the second, filled with copies of the sign.
    Ashr,
    /// Equal.
    Eq,
    /// Not equal.
    Ne,
    /// Below, unsigned.
    Ult,
    /// At most, unsigned.
    Ule,
    /// Above, unsigned.
    Ugt,
    /// At least, unsigned.
    Uge,
    /// Below, signed.
    Slt,
    /// At most, signed.
    Sle,
    /// Above, signed.
    Sgt,
    /// At least, signed.
    Sge,
    /// The second where the first is 1, else the third.
    Select,
    /// Widened by zeros.
    Zext,
    /// Widened by copies of the sign.
    Sext,
    /// The low bits.
    Trunc,
    /// The same.
    Ret,
}

/// All operators, in the order of the table.
const ALL: [Op; 28] = [
    Op::Add,
    Op::Sub,
    Op::Mul,
    Op::Udiv,
    Op::Urem,
    Op::Sdiv,
    Op::Srem,
    Op::And,
    Op::Or,
    Op::Xor,
    Op::Shl,
    Op::Lshr,
    Op::Ashr,
    Op::Eq,
    Op::Ne,
    Op::Ult,
    Op::Ule,
    Op::Ugt,
    Op::Uge,
    Op::Slt,
    Op::Sle,
    Op::Sgt,
    Op::Sge,
    Op::Select,
    Op::Zext,
    Op::Sext,
    Op::Trunc,
    Op::Ret,
];

/// The name in a graph, as `add_op` and `icmp_ne_op`.
pub fn op_name(op: Op) -> &'static str
    ensures { result.now ≡ graph_word op }
{
    match op {
        Op::Add => "add_op",
        Op::Sub => "sub_op",
        Op::Mul => "mul_op",
        Op::Udiv => "udiv_op",
        Op::Urem => "urem_op",
        Op::Sdiv => "sdiv_op",
        Op::Srem => "srem_op",
        Op::And => "and_op",
        Op::Or => "or_op",
        Op::Xor => "xor_op",
        Op::Shl => "shl_op",
        Op::Lshr => "lshr_op",
        Op::Ashr => "ashr_op",
        Op::Eq => "icmp_eq_op",
        Op::Ne => "icmp_ne_op",
        Op::Ult => "icmp_ult_op",
        Op::Ule => "icmp_ule_op",
        Op::Ugt => "icmp_ugt_op",
        Op::Uge => "icmp_uge_op",
        Op::Slt => "icmp_slt_op",
        Op::Sle => "icmp_sle_op",
        Op::Sgt => "icmp_sgt_op",
        Op::Sge => "icmp_sge_op",
        Op::Select => "select_op",
        Op::Zext => "zext_op",
        Op::Sext => "sext_op",
        Op::Trunc => "trunc_op",
        Op::Ret => "ret_op",
    }
}

/// The name in a function, as `add` and `ne`.
pub fn short_name(op: Op) -> &'static str
    ensures { result.now ≡ op_word op }
{
    match op {
        Op::Add => "add",
        Op::Sub => "sub",
        Op::Mul => "mul",
        Op::Udiv => "udiv",
        Op::Urem => "urem",
        Op::Sdiv => "sdiv",
        Op::Srem => "srem",
        Op::And => "and",
        Op::Or => "or",
        Op::Xor => "xor",
        Op::Shl => "shl",
        Op::Lshr => "lshr",
        Op::Ashr => "ashr",
        Op::Eq => "eq",
        Op::Ne => "ne",
        Op::Ult => "ult",
        Op::Ule => "ule",
        Op::Ugt => "ugt",
        Op::Uge => "uge",
        Op::Slt => "slt",
        Op::Sle => "sle",
        Op::Sgt => "sgt",
        Op::Sge => "sge",
        Op::Select => "select",
        Op::Zext => "zext",
        Op::Sext => "sext",
        Op::Trunc => "trunc",
        Op::Ret => "ret",
    }
}

/// The operator with this name in a graph, or `None` exactly where no operator has it.
pub fn op_of(word: &[u8]) -> Option<Op>
    ensures named { (op : Op) → (result ≡ Some op) ↔ (word.now ≡ graph_word op) }
    ensures none { IsNone result ↔ ((op : Op) → word.now ≢ graph_word op) }
    ensures table { result ≡ op_named word.now }
{
    find_named(word)
}

/// The operator with this name in a function, or `None` exactly where no operator has it.
pub fn op_of_short(word: &[u8]) -> Option<Op>
    ensures named { (op : Op) → (result ≡ Some op) ↔ (word.now ≡ op_word op) }
    ensures none { IsNone result ↔ ((op : Op) → word.now ≢ op_word op) }
{
    find_short(word)
}

/// The first operator with this name in a graph.
fn find_named(word: &[u8]) -> Option<Op>
    ensures { result ≡ find (λ op. bytes_eq (graph_word op) word.now) ALL }
{
    ALL.iter()
        .copied()
        .find(|op| op_name(*op).as_bytes() == word)
}

/// The first operator with this name in a function.
fn find_short(word: &[u8]) -> Option<Op>
    ensures { result ≡ find (λ op. bytes_eq (op_word op) word.now) ALL }
{
    ALL.iter()
        .copied()
        .find(|op| short_name(*op).as_bytes() == word)
}
