// The list of an undamaged image (Q-8), as theorems alone: of a site reached by the rules no number
// reads "differs", and every count is true.
