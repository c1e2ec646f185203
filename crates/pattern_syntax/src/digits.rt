//! The numbers of quantifiers, by their digits.

ghost use Rattle.std.specs.Prelude.{◌≡◌, IsTrue, nat_le};
ghost use Rattle.std.specs.List.{list_all};
ghost use Rattle.std.specs.Char.{is_ascii_digit};
ghost use Rattle.pattern_syntax.specs.Grammar.{number, bound as bound_of};
ghost use Rattle.pattern_syntax.specs.Numbers.{skip_zeros};

/// The number that the digits write, or 4,097 where it is greater.
pub(crate) fn bound(digits: &[char]) -> u32
    requires { IsTrue (list_all is_ascii_digit digits.now) }
    ensures { result ≡ bound_of digits.now }
{
    let mut number = 0u32;
    'digits: for digit in digits {
        let value = *digit as u32;
        number = (number * 10 + (value - 48)).min(4097);
    }
    number
}

/// Whether the first number is at most the second.
pub(crate) fn is_at_most(least: &[char], most: &[char]) -> bool
    requires least { IsTrue (list_all is_ascii_digit least.now) }
    requires most { IsTrue (list_all is_ascii_digit most.now) }
    ensures { result ≡ nat_le (number least.now) (number most.now) }
{
    let least = without_zeros(least);
    let most = without_zeros(most);
    least.len() < most.len() || (least.len() == most.len() && least.cmp(most).is_le())
}

/// The digits without the zeros in front.
fn without_zeros(digits: &[char]) -> &[char]
    ensures { result.now ≡ skip_zeros digits.now }
{
    let mut rest = digits;
    'zeros: while let Some((digit, more)) = rest.split_first() {
        if *digit != '0' {
            break;
        }
        rest = more;
    }
    rest
}
