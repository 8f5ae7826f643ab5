use crate::table::Recipe;
use sets::shape::Shape;
use sets::span::Span;

// What a report is asked for: a set's shape, one span for all its channels, and a recipe.
#[derive(Clone, Copy)]
pub struct Request {
    pub shape: Shape,
    pub span: Span,
    pub recipe: Recipe,
}
