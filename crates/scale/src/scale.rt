// What generic code asks of a scale.
ghost use Rattle.std.specs.Prelude.{◌≡◌, ℤ};
ghost use Rattle.scale.specs.Algebra.{Algebra, LawfulScale, Numbers, product_of, quotient_of};

pub trait Scale: Copy {
    // The lowest and the highest value.
    const LOWEST: i32;

    const HIGHEST: i32;

    // The least and the greatest window value.
    const LEAST_WINDOW: i32;

    const GREATEST_WINDOW: i32;

    // The least and the greatest coefficient.
    const LEAST_COEFFICIENT: i32;

    const GREATEST_COEFFICIENT: i32;

    ghost LOWEST: { ℤ };

    ghost HIGHEST: { ℤ };

    ghost LEAST_WINDOW: { ℤ };

    ghost GREATEST_WINDOW: { ℤ };

    ghost LEAST_COEFFICIENT: { ℤ };

    ghost GREATEST_COEFFICIENT: { ℤ };

    // The numbers and the two operations.
    ghost algebra: { Algebra };

    // The product a ⊗ x.
    fn product(a: Option<i32>, x: i32) -> i32
        ensures { result ≡ product_of algebra a x };

    // The quotient a \ b.
    fn quotient(a: Option<i32>, b: i32) -> i32
        ensures { result ≡ quotient_of algebra a b };

    // The constants are the algebra's numbers.
    ghost numbers: { Numbers algebra LOWEST HIGHEST LEAST_WINDOW GREATEST_WINDOW LEAST_COEFFICIENT GREATEST_COEFFICIENT };

    ghost lawful: { LawfulScale algebra };
}
